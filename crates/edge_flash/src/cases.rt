//! The case at a place of a search.

ghost use Rattle.std.specs.Prelude.{◌≤◌};
ghost use Rattle.case_words.specs.Quantities.{least, greatest};
ghost use Rattle.edge_flash.specs.Ends.{IsCaseAt};

use case_types::Case;
use case_words::By;

/// The case with another pressure in Pa or temperature in mK.
pub fn case_at(case: &Case, by: By, place: u32) -> Case
    requires low { least by ≤ place }
    requires high { place ≤ greatest by }
    ensures { IsCaseAt by case.now place result }
{
    let mut there = *case;
    match by {
        By::Pressure => there.p = place,
        By::Temperature => there.t = place,
    }
    there
}
