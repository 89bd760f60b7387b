//! What a byte stands for in a tree of halvings.

ghost use Rattle.std.specs.Prelude.{◌≡◌, ◌≤◌, IfSome};
ghost use Rattle.std.specs.Option.{option_map};
ghost use Rattle.case_types.specs.Grid.Cells.{region_of};
ghost use Rattle.cert_letters.specs.Steps.{step_of, can_halve, step_by, HasEdge};

use case_types::Cell;
use density_boxes::PACKING;

/// What stands on a leaf.
#[derive(Clone, Copy, Debug, PartialEq, Eq)]
pub enum LeafHow {
    /// No composition lies in the cell.
    Misses,
    /// The plain low clears the cell.
    Plain,
    /// The slope low clears the cell.
    Sloped,
}

/// A letter of a tree.
#[derive(Clone, Copy, Debug, PartialEq, Eq)]
pub enum Letter {
    /// The cell is a leaf.
    Leaf(LeafHow),
    /// The cell is halved along this edge.
    Edge(u8),
}

/// What a byte stands for in a tree of `n` components: nothing where it is no letter, or names no edge of them.
#[tactic(auto, unfolding(crate::specs::Steps::step_of))]
pub fn letter_of(n: u8, byte: u8) -> Option<Letter>
    requires { n ≤ 4 }
    ensures step { option_map step_by result ≡ step_of n byte }
    ensures edge { IfSome result HasEdge }
{
    match byte {
        b'm' => Some(Letter::Leaf(LeafHow::Misses)),
        b'p' => Some(Letter::Leaf(LeafHow::Plain)),
        b's' => Some(Letter::Leaf(LeafHow::Sloped)),
        b'y' => Some(Letter::Edge(PACKING)),
        _ if b'1' <= byte && byte < b'0' + n => Some(Letter::Edge(byte - b'1')),
        _ => None,
    }
}

/// Whether the edge has two units of the grid or more.
pub fn is_wide(cell: &Cell, edge: u8) -> bool
    requires { edge ≤ 3 }
    ensures { result ≡ can_halve (region_of cell.now) edge }
{
    if edge == PACKING {
        cell.yhi - cell.ylo >= 2
    } else {
        cell.hi[edge as usize] - cell.lo[edge as usize] >= 2
    }
}
