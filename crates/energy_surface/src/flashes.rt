//! The flash of any case, and what each flash promises.

ghost use Rattle.std.specs.Prelude.{◌≡◌, ◌≤◌, ◌*◌, ◌^◌, ◌↔◌, pos, ◌≤ℤ◌, IfOk, Some, Err};

use case_types::{Answer, Case, FlashFault};

/// A flash of any case of one to four components.
pub trait Flash {
    ghost use Rattle.case_types.specs.declared.answers.FlashFault.TheVariants.{Param};
    ghost use Rattle.case_types.specs.declared.answers.Outcome.TheVariants.{Closed};
    ghost use Rattle.case_types.specs.declared.cases.Case.{Case};
    ghost use Rattle.case_types.specs.declared.cases.ParamFault.{ParamFault};
    ghost use Rattle.case_types.specs.Arithmetic.Faults.{fault_of};
    ghost use Rattle.case_types.specs.Arithmetic.Numbers.{enclosures_of};
    ghost use Rattle.case_types.specs.Energy.Divisions.{Certified, division_of};
    ghost use Rattle.energy_surface.specs.Flashes.{BoundCases};
    ghost use Rattle.energy_surface.specs.Lawful.{IsLawful};
    ghost use Rattle.energy_surface.specs.Surfaces.{Surface};

    /// The energy surface of a case.
    ghost surface: { Case → Surface };

    /// The flash of the case at its temperature and pressure, with its list of work.
    ///
    /// The answer is certified, whatever its outcome: its split is a division of the feed whose energy is at most `u`, and no
    /// division of the feed has an energy below `u - gap`. Where the flash closes, the gap is at most three quarters of the
    /// tolerance. The list of work is lawful over the surface of the case, so the outcome has its cause too.
    ///
    /// The fault `Param` comes exactly where the parameters of the case break a range, and says the first that they break.
    ///
    /// `tol` is the tolerance in 2^-20 bit, `budget` the most units of work.
    fn flash(&mut self, case: &Case, tol: u32, budget: u32) -> Result<Answer, FlashFault>
        requires tol_low { 128 ≤ tol }
        requires tol_high { tol ≤ 1048576 }
        requires budget_low { 1 ≤ budget }
        requires budget_high { budget ≤ 10000000 }
        ensures certified { IfOk result (λ a. Certified case.now (enclosures_of case.now) (division_of a.split) a.u a.gap) }
        ensures near { IfOk result (λ a. a.outcome ≡ Closed → a.gap ≤ℤ pos (3 * tol * 2 ^ 18)) }
        ensures lawful { IfOk result (λ a. IsLawful (surface case.now) case.now tol budget a) }
        ensures refused { (f : ParamFault) → (result ≡ Err (Param f)) ↔ (fault_of case.now ≡ Some f) };

    /// The surfaces bound the energies of the cases.
    ghost bounds: { BoundCases surface };
}
