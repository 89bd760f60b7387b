//! The least low of cells.

ghost use Rattle.std.specs.Prelude.{◌≡◌, ◌∷◌, Some};
ghost use Rattle.fibre_bound.specs.Lows.{least_of};
ghost use Rattle.fibre_bound.specs.Walks.{lesser as lesser_of};

use crate::cells::Cell;
use crate::stack::Stack;

/// The lesser of the least low so far, if there is one, and another.
pub fn lesser(least: Option<i128>, low: &i128) -> Option<i128>
    ensures { result ≡ Some (lesser_of least low.now) }
{
    match least {
        Some(least) if least <= *low => Some(least),
        _ => Some(*low),
    }
}

/// The least low, with those of the cell in hand and of the cells that are left.
#[tactic(auto, unfolding(crate::specs::Lows::least_of))]
pub fn least_low(least: Option<i128>, hand: &Cell, mut left: Stack) -> Option<i128>
    ensures { result ≡ least_of least (hand.now ∷ left) }
{
    let mut least = lesser(least, &hand.low);
    while let Some(cell) = left.pop() {
        least = lesser(least, &cell.low);
    }
    least
}
