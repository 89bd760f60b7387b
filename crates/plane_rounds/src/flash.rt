//! The flash, and what it promises.

ghost use Rattle.std.specs.Prelude.{◌≡◌, ◌≤◌, ◌*◌, ◌^◌, pos, ◌≤ℤ◌, IfOk};
ghost use Rattle.case_types.specs.declared.answers.Outcome.TheVariants.{Closed};
ghost use Rattle.case_types.specs.Energy.Divisions.{Certified, division_of};
ghost use Rattle.case_types.specs.Arithmetic.Numbers.{numbers_of};
ghost use Rattle.case_types.specs.Energy.Printed.{enclosures_in};
ghost use Rattle.energy_surface.specs.Lawful.{IsLawful};
ghost use Rattle.pr_surface.specs.PengRobinson.{surface_of};

use crate::guesses::NearFlash;
use case_types::{Answer, Memory};
use log_enclose::{LogStore, Logarithms};
use pr_params::Params;
use pr_surface::PengRobinson;
use std::alloc::Global;
use surface_rounds::flashed;

/// The flash at the temperature and pressure of the case. All memory is taken before the first unit is spent.
///
/// The answer is certified, whatever its outcome: its split is a division of the feed whose energy is at most `u`, and no
/// division of the feed has an energy below `u - gap`, for every choice of the roots and of log2 e within the printed pairs.
/// Where the flash closes, the gap is at most three quarters of the tolerance. The answer carries its list of work, which is
/// lawful: each letter, round, pivot and unit has its cause, and so has the outcome. `Closed` comes where the last search clears
/// the whole domain, `Spent` where a unit is wanted and none is left, and `Grain` where its cell can be neither cleared nor
/// halved and its middle doesn't cut the plane off.
///
/// `tol` is the tolerance in 2^-20 bit, `budget` the most units of work.
pub fn flash_tp(alloc: Global, params: &Params, tol: u32, budget: u32) -> Result<Answer, Memory>
    requires tol_low { 128 ≤ tol }
    requires tol_high { tol ≤ 1048576 }
    requires budget_low { 1 ≤ budget }
    requires budget_high { budget ≤ 10000000 }
    ensures certified { IfOk result (λ a. let p = params.now in
        Certified p.case (enclosures_in p.case.n p.two p.e p.t p.q) (division_of a.split) a.u a.gap) }
    ensures near { IfOk result (λ a. a.outcome ≡ Closed → a.gap ≤ℤ pos (3 * tol * 2 ^ 18)) }
    ensures lawful { IfOk result (λ a. IsLawful (surface_of (numbers_of params.now.case)) params.now.case tol budget a) }
{
    let store = LogStore::new();
    let logs = Logarithms::Kept(&store);
    let surface = PengRobinson { params, logs };
    let guide = NearFlash { surface };
    flashed(alloc, &surface, &guide, &params.case, tol, budget)
}
