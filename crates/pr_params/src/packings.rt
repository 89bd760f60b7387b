//! The logarithms at a packing fraction.

ghost use Rattle.std.specs.Prelude.{◌≡◌, ◌≤◌, ◌^◌, unsigned_abs};
ghost use Rattle.log_laws.specs.Squaring.{log_down, log_up};
ghost use Rattle.case_types.specs.declared.cases.Case.{Case};
ghost use Rattle.case_types.specs.Arithmetic.Numbers.{numbers_of};
ghost use Rattle.pr_params.specs.Packings.{log_or_none, ArePackingLogs};

use crate::lambdas::lambda_ends;
use crate::naturals::{interval, none};
use case_types::PackingLogs;
use log_enclose::Logarithms;
use log_laws::Iv;

/// 1 in 2^-40.
const ONE: u64 = 1 << 40;

/// The logarithms at the packing fraction `y` in 2^-40: of itself, of what it leaves of 1 and of the attraction term, each
/// at least and at most, in 2^-40. The logarithm of 0 is given as 0.
pub fn packing_logs(logs: Logarithms<'_>, y: u64) -> PackingLogs
    requires { y ≤ 2 ^ 40 }
    ensures at { result.packing ≡ y }
    ensures logs { (c : Case) → ArePackingLogs (numbers_of c) y result }
{
    let packing = log_ends(logs, y);
    let rest = log_ends(logs, ONE - y);
    let lambda = lambda_ends(logs, y);
    PackingLogs {
        packing: y,
        packing_low: packing.lo,
        packing_high: packing.hi,
        rest_low: rest.lo,
        rest_high: rest.hi,
        lambda_low: lambda.lo,
        lambda_high: lambda.hi,
    }
}

/// The logarithm of a number in 2^-40, at least and at most, in 2^-40. That of 0 is given as 0.
fn log_ends(logs: Logarithms<'_>, y: u64) -> Iv
    requires { y ≤ 2 ^ 40 }
    ensures lo { result.lo ≡ log_or_none log_down y }
    ensures hi { result.hi ≡ log_or_none log_up y }
    ensures lo_small { unsigned_abs result.lo ≤ 2 ^ 47 }
    ensures hi_small { unsigned_abs result.hi ≤ 2 ^ 47 }
{
    if y == 0 {
        return none();
    }
    logs.of(interval(y as u128, y as u128), 40)
}
