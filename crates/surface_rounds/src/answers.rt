//! The answer of a flash.

ghost use Rattle.std.specs.Prelude.{◌≡◌, ◌≤◌, ◌^◌, IsSome, IfSome, unsigned_abs};
ghost use Rattle.energy_surface.specs.Searches.{low_of};
ghost use Rattle.surface_rounds.specs.Answering.{IsAnswerOf};

use crate::stages::Stage;
use box_search::plane_at_feed;
use case_types::{Answer, Case, Outcome, Split, Units, Work};
use energy_surface::Found;

/// The answer of a flash whose last round is this one, with the split that it chooses.
pub fn answer_of(case: &Case, split: Split, stage: &Stage, units: &Units, work: Work) -> Answer
    requires ends { IsSome (low_of stage.now.found) }
    requires low { IfSome (low_of stage.now.found) (λ low. unsigned_abs low ≤ 2 ^ 107) }
    requires up { unsigned_abs stage.now.chosen.u ≤ 2 ^ 109 }
    ensures { IsAnswerOf case.now split stage.now units.now.spent work result }
{
    let (outcome, low) = match stage.found {
        Found::AllClear { low } => (Outcome::Closed, low),
        Found::Spent { low } => (Outcome::Spent, low),
        Found::Grain { low, cell } => (Outcome::Grain(cell), low),
        Found::Refuted { .. } => unreachable!(),
    };
    let u = stage.chosen.u;
    Answer {
        outcome,
        split,
        u,
        plane: stage.plane,
        low,
        gap: u - plane_at_feed(case, &stage.plane) - low,
        units: units.spent,
        work,
    }
}
