//! The attraction term.

ghost use Rattle.std.specs.Prelude.{ℕ, ◌≡◌, ◌≤◌, ◌<◌, ◌-◌, ◌*◌, ◌^◌, pos, ◌*ℤ◌, unsigned_abs};
ghost use Rattle.log_laws.specs.Whole.{floor_div};
ghost use Rattle.case_types.specs.declared.cases.Case.{Case};
ghost use Rattle.case_types.specs.Arithmetic.Bounds.{attraction_term_low as term_low, attraction_term_high as term_high};
ghost use Rattle.case_types.specs.Arithmetic.Numbers.{numbers_of};
ghost use Rattle.pr_params.specs.Packings.{ArePackingLogs};

use crate::constants::{ROOT_TWO_HI, ROOT_TWO_LO};
use case_types::PackingLogs;

/// The attraction term at least, in 2^-40, from a mean attraction over a mean co-volume and the logarithms at a packing
/// fraction.
pub fn attraction_term_low(ratio: i128, logs: &PackingLogs) -> i128
    requires { unsigned_abs ratio ≤ 2 ^ 47 }
    ensures value { (c : Case) (y : ℕ) → ArePackingLogs (numbers_of c) y logs.now →
        result ≡ term_low (numbers_of c) ratio y }
    ensures small { unsigned_abs result ≤ 2 ^ 48 - 2 ^ 45 }
{
    floored(weighed(ratio, logs.lambda_low), ROOT_TWO_HI)
}

/// The attraction term at most: what it is at least with the other sign.
pub fn attraction_term_high(ratio: i128, logs: &PackingLogs) -> i128
    requires { unsigned_abs ratio ≤ 2 ^ 47 }
    ensures value { (c : Case) (y : ℕ) → ArePackingLogs (numbers_of c) y logs.now →
        result ≡ term_high (numbers_of c) ratio y }
    ensures small { unsigned_abs result ≤ 2 ^ 48 - 2 ^ 45 }
{
    -floored(-weighed(ratio, logs.lambda_high), ROOT_TWO_LO)
}

/// A number over the root of 2, rounded down.
fn floored(z: i128, two: u128) -> i128
    requires z { unsigned_abs z ≤ 2 ^ 108 }
    requires low { 5 * 2 ^ 58 ≤ two }
    requires high { two < 2 ^ 61 }
    ensures value { result ≡ floor_div z (pos two) }
    ensures small { unsigned_abs result ≤ 2 ^ 48 - 2 ^ 45 }
{
    z.div_euclid(two as i128)
}

/// A ratio times a logarithm, in 2^-99.
fn weighed(ratio: i128, log: i128) -> i128
    requires ratio { unsigned_abs ratio ≤ 2 ^ 47 }
    requires log { unsigned_abs log ≤ 2 ^ 42 }
    ensures value { result ≡ ratio *ℤ log *ℤ pos (2 ^ 19) }
    ensures small { unsigned_abs result ≤ 2 ^ 108 }
{
    product(ratio, log) * (1 << 19)
}

/// A ratio times a logarithm, in 2^-80.
fn product(ratio: i128, log: i128) -> i128
    requires ratio { unsigned_abs ratio ≤ 2 ^ 47 }
    requires log { unsigned_abs log ≤ 2 ^ 42 }
    ensures value { result ≡ ratio *ℤ log }
    ensures small { unsigned_abs result ≤ 2 ^ 89 }
{
    ratio * log
}
