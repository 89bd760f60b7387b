//! A walk over the states of the feed in one phase, for any case.

ghost use Rattle.std.specs.Prelude.{ℕ, ◌≡◌, ◌≤◌, ◌<◌, ◌^◌, ◌↔◌, IfOk, Some, Err, unsigned_abs};

use case_types::{Case, ParamFault};
use fibre_bound::Fibre;

/// What a walk came to, and the units that it spent.
#[derive(Clone, Copy, Debug, PartialEq, Eq)]
pub struct Walked {
    pub fibre: Fibre,
    pub units: u32,
    pub ghost inside: { fibre.packing < 2 ^ 40 },
    pub ghost up_small: { unsigned_abs fibre.up < 2 ^ 49 },
    pub ghost low_small: { unsigned_abs fibre.low ≤ 2 ^ 107 },
}

/// A walk over the states of the feed in one phase, for any case of one to four components.
pub trait OnePhase {
    ghost use Rattle.case_types.specs.declared.cases.Case.{Case};
    ghost use Rattle.case_types.specs.declared.cases.ParamFault.{ParamFault};
    ghost use Rattle.case_types.specs.Arithmetic.Faults.{fault_of};
    ghost use Rattle.fibre_bound.specs.declared.fibres.Fibre.{Fibre};
    ghost use Rattle.fibre_bound.specs.Laws.{GrainIsInside};
    ghost use Rattle.edge_flash.specs.Fibres.{WalksHold};

    /// Of a case, a tolerance, a budget and the units spent: the walk came to these bounds.
    ghost is_walk: { Case → ℕ → ℕ → ℕ → Fibre → Type 0 };

    /// Walks over the states of the feed in one phase. The fault comes exactly where the parameters of the case break a range, and
    /// says the first that they break.
    ///
    /// `tol` is the tolerance in 2^-20 bit, `budget` the most units of work.
    fn walk(&self, case: &Case, tol: u32, budget: u32) -> Result<Walked, ParamFault>
        requires tol_high { tol ≤ 1048576 }
        requires budget_high { budget ≤ 10000000 }
        ensures walk { IfOk result (λ w. is_walk case.now tol budget w.units w.fibre) }
        ensures grain { IfOk result (λ w. GrainIsInside w.fibre.end) }
        ensures refused { (f : ParamFault) → (result ≡ Err f) ↔ (fault_of case.now ≡ Some f) };

    /// The bounds of a walk hold.
    ghost walks_hold: { WalksHold is_walk };
}
