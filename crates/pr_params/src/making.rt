//! From a case to its numbers.

ghost use Rattle.std.specs.Prelude.{◌≡◌, Some, IfOk, IfErr};
ghost use Rattle.case_types.specs.Arithmetic.Faults.{fault_of};
ghost use Rattle.case_types.specs.Arithmetic.Holding.{HoldsParameters};
ghost use Rattle.case_types.specs.Energy.Instances.{AreRight, Instance, IsInstance};
ghost use Rattle.case_types.specs.Arithmetic.Numbers.{numbers_of, enclosures_of};
ghost use Rattle.case_types.specs.Energy.Printed.{enclosures_in};
ghost use Rattle.pr_params.specs.Kept.{numbers_kept, AreVacant, IsGreatestLift};

use crate::bases::{Bases, check_alphas};
use crate::by_component::roots;
use crate::lifted::lift_case;
use crate::lifting::{are_in_range, are_near};
use crate::numbers::Params;
use case_types::{Case, ParamFault};
use log_enclose::log2e;
use root_enclose::root_iv;

/// The numbers of a case, or the range that they break first.
///
/// The ranges are tested in the order of the variants of `ParamFault`, and each by rising components.
pub fn params(case: &Case) -> Result<Params, ParamFault>
    ensures ok { IfOk result (λ p. p.case ≡ case.now) }
    ensures err { IfErr result (λ f. fault_of case.now ≡ Some f) }
    ensures pairs { IfOk result (λ p. enclosures_in p.case.n p.two p.e p.t p.q ≡ enclosures_of case.now) }
    ensures right { IfOk result (λ p. AreRight case.now (enclosures_in p.case.n p.two p.e p.t p.q)) }
    ensures lift { IfOk result (λ p. IsGreatestLift case.now 29 p.lift) }
    ensures numbers { IfOk result (λ p. numbers_kept p ≡ numbers_of case.now) }
    ensures vacant { IfOk result (λ p. AreVacant p) }
    ensures holds { IfOk result (λ p. (x : Instance) →
        IsInstance case.now (enclosures_in p.case.n p.two p.e p.t p.q) x → HoldsParameters case.now (numbers_kept p) x) }
{
    if !are_in_range(case) {
        return Err(ParamFault::BRange);
    }
    if !are_near(case) {
        return Err(ParamFault::BRatio);
    }
    let lifted = lift_case(case);
    let (t, m) = roots(case);
    check_alphas(case, &m)?;
    let bases = Bases {
        case: *case,
        m,
        b: lifted.covolumes(),
        h: lifted.bare_attractions(),
    };
    bases.check_attractions()?;
    Ok(Params {
        case: *case,
        lift: lifted.lift,
        two: root_iv(2, 1, 60),
        e: log2e(),
        t,
        q: lifted.q,
        m,
        b: bases.b,
        a: bases.attractions(),
        h: bases.h,
        rho: bases.greatest_ratio() as i128,
    })
}
