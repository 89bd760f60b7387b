//! A round of a flash: pivots, the choice of a split, a plane, and the search under it.

ghost use Rattle.std.specs.Prelude.{◌≡◌, ◌≤◌, ◌+◌, ◌*◌, ◌^◌, pos, ◌≤ℤ◌, IfSome, unsigned_abs};
ghost use Rattle.energy_surface.specs.Outcomes.{delta_of};
ghost use Rattle.energy_surface.specs.Rounds.{slack_of};
ghost use Rattle.energy_surface.specs.Searches.{low_of};
ghost use Rattle.box_search.specs.Found.{units_of};
ghost use Rattle.surface_rounds.specs.Flashing.{IsBetweenRounds, IsAfterRound};
ghost use Rattle.surface_rounds.specs.Rivals.{AreRivals};

use crate::choices::{Chosen, choose};
use crate::guides::Guide;
use crate::optimizing::optimize;
use crate::rivals::RIVALS;
use crate::rounds::{cut_short, round};
use crate::splits::Rival;
use arrayvec::ArrayVec;
use box_search::whole_low;
use case_types::{Case, Plane, Units, Work};
use energy_surface::{Found, Surface};
use exact_lp::{Basis, plane, start};

/// What a round leaves beside the lists of work.
#[derive(Clone, Copy, Debug, PartialEq, Eq)]
pub struct Stage {
    /// The split that it chooses.
    pub chosen: Chosen,
    /// The plane that is searched; or that of the pure components, where no unit is left for a pivot.
    pub plane: Plane,
    /// How the search under it ends.
    pub found: Found,
}

/// A round of a flash. `tol` is the tolerance in 2^-20 bit.
pub fn next_stage<S: Surface, G: Guide>(
    surface: &S,
    guide: &G,
    case: &Case,
    tol: u32,
    rivals: &ArrayVec<Rival, RIVALS>,
    basis: &mut Basis,
    work: &mut Work,
    units: &mut Units,
) -> Stage
    requires components { case.now.n ≡ (S.bounds surface.now).count }
    requires tol_low { 128 ≤ tol }
    requires tol_high { tol ≤ 1048576 }
    requires guide { G.bounds guide.now ≡ S.bounds surface.now }
    requires rivals { AreRivals (S.bounds surface.now) case.now rivals.now.items }
    requires between { IsBetweenRounds (S.bounds surface.now) case.now tol units.old work.old basis.old.at }
    ensures after { IsAfterRound (S.bounds surface.now) case.now tol units.new work.new basis.new.at rivals.now.items result result.found }
    ensures low { IfSome (low_of result.found) (λ low. unsigned_abs low ≤ 2 ^ 107) }
    ensures up { unsigned_abs result.chosen.u ≤ 2 ^ 109 }
    ensures budget { units.new.budget ≡ units.old.budget }
    ensures spent { units.old.spent + units_of result.found ≤ units.new.spent }
{
    let wanted = optimize(case, &work.columns, basis, &mut work.pivots, units);
    let chosen = choose(case, &work.columns, basis, rivals, slack(tol));
    if wanted.is_some() {
        let plane = plane(case, &work.columns, &start(case));
        let low = whole_low(surface, &plane);
        cut_short(work, plane, chosen.u);
        return Stage {
            chosen,
            plane,
            found: Found::Spent { low },
        };
    }
    let plane = plane(case, &work.columns, basis);
    let found = round(surface, guide, &plane, chosen.u, delta(tol), work, units);
    Stage {
        chosen,
        plane,
        found,
    }
}

/// Half of the tolerance, in 2^-40 bit.
fn delta(tol: u32) -> i128
    requires low { 128 ≤ tol }
    requires high { tol ≤ 1048576 }
    ensures value { result ≡ delta_of tol }
    ensures positive { pos 1 ≤ℤ result }
    ensures small { result ≤ℤ pos (2 ^ 39) }
{
    tol as i128 * (1 << 19)
}

/// A 64th of the tolerance, in 2^-40 bit.
fn slack(tol: u32) -> i128
    requires { tol ≤ 1048576 }
    ensures value { result ≡ slack_of tol }
    ensures not_negative { pos 0 ≤ℤ result }
    ensures small { result ≤ℤ pos (2 ^ 34) }
{
    tol as i128 * (1 << 14)
}
