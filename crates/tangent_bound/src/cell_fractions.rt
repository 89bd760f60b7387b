//! The fractions of all components over a cell.

ghost use Rattle.std.specs.Prelude.{◌≡◌, ◌≤◌, IsFalse};
ghost use Rattle.case_types.specs.Grid.Cells.{Region, region_of, misses};
ghost use Rattle.tangent_bound.specs.SlopeParts.{AreFractions};

use crate::fractions::Fractions;
use case_types::Cell;
use density_boxes::{cell_box, middle_fractions};

/// The fractions of `n` components over a cell.
pub fn fractions_of(n: u8, cell: &Cell) -> Fractions
    requires one { 1 ≤ n }
    requires four { n ≤ 4 }
    requires meets { IsFalse (misses n (region_of cell.now)) }
    ensures { (r : Region) → r.lo ≡ cell.now.lo → r.hi ≡ cell.now.hi → AreFractions n r result }
{
    Fractions {
        ends: cell_box(n, cell),
        middle: middle_fractions(n, cell),
    }
}
