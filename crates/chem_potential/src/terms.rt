//! Quotients and products of which the potentials are made, each kept to a range. Values are in 2^-40.

ghost use Rattle.std.specs.Prelude.{◌≤◌, ◌<◌, ◌^◌, unsigned_abs};

use crate::kept::kept;
use log_enclose::{Logarithms, log2_lo};
use pr_params::lambda_ends;

/// 1 in 2^-40.
const ONE: u128 = 1 << 40;

/// The logarithm of e to the base 2.
pub const LOG_E: u128 = 1_586_259_972_792;

/// The greatest product.
const GREATEST: u128 = 1 << 62;

/// Half the root of a half, which is `1/(2 root 2)`, in 2^-40.
const HALF_OF_ROOT: i128 = 388_736_063_997;

/// The logarithm of a positive number over 2^`scale`, kept to the range.
pub fn log_of(n: u128, scale: u32) -> i128
    requires positive { 1 ≤ n }
    requires below { n ≤ 2 ^ 61 }
    requires scaled { scale ≤ 100 }
    ensures { unsigned_abs result ≤ 2 ^ 60 }
{
    kept(log2_lo(n, scale))
}

/// A co-volume over the mean one.
pub fn covolume_ratio(b: u128, mean: u128) -> u128
    requires b { b ≤ 2 ^ 61 }
    requires mean { 2 ^ 49 ≤ mean }
    ensures { result ≤ 2 ^ 52 }
{
    (b << 40) / mean
}

/// An attraction in 2^-(49+lift) over a co-volume in 2^-(56+lift), kept to the range.
pub fn attraction_ratio(a: u128, mean: u128) -> u128
    requires a { a ≤ 2 ^ 61 }
    requires mean { 2 ^ 49 ≤ mean }
    ensures { result ≤ 2 ^ 48 }
{
    ((a << 47) / mean).min(1 << 48)
}

/// The packing fraction over what it leaves of 1, `y/(1-y)`, kept to the range.
pub fn crowding(y: u128) -> u128
    requires { y < 2 ^ 40 }
    ensures { result ≤ 2 ^ 72 }
{
    ((y << 40) / (ONE - y)).min(1 << 72)
}

/// A co-volume over the mean one, times the crowding, kept to the range.
pub fn crowded(ratio: u128, crowding: u128) -> u128
    requires ratio { ratio ≤ 2 ^ 52 }
    requires crowding { crowding ≤ 2 ^ 72 }
    ensures { result ≤ 2 ^ 62 }
{
    ((ratio * crowding) >> 40).min(GREATEST)
}

/// The packing fraction over the polynomial of the attraction, `y/(1+2y-y^2)`.
pub fn thinned(y: u128) -> u128
    requires { y < 2 ^ 40 }
    ensures { result ≤ 2 ^ 40 }
{
    (y << 40) / (ONE + 2 * y - ((y * y) >> 40))
}

/// The product of two numbers, kept to the range.
pub fn product(a: u128, b: u128) -> u128
    requires a { a ≤ 2 ^ 62 }
    requires b { b ≤ 2 ^ 62 }
    ensures { result ≤ 2 ^ 62 }
{
    ((a * b) >> 40).min(GREATEST)
}

/// A number times the logarithm of e, kept to the range.
pub fn in_bits(a: u128) -> i128
    requires { a ≤ 2 ^ 62 }
    ensures { unsigned_abs result ≤ 2 ^ 62 }
{
    product(a, LOG_E) as i128
}

/// How the attraction over the co-volume grows with a component: `2 S/B - (A/B)(b/B)`.
pub fn growth(pull: u128, whole: u128) -> i128
    requires pull { pull ≤ 2 ^ 48 }
    requires whole { whole ≤ 2 ^ 62 }
    ensures { unsigned_abs result ≤ 2 ^ 63 }
{
    2 * pull as i128 - whole as i128
}

/// The logarithm of the attraction term over twice the root of 2.
pub fn attraction_log(y: u64) -> i128
    requires { y ≤ 2 ^ 40 }
    ensures { unsigned_abs result ≤ 2 ^ 48 }
{
    over_two_roots(lambda_ends(Logarithms::Anew, y).lo)
}

/// A logarithm over twice the root of 2.
fn over_two_roots(log: i128) -> i128
    requires { unsigned_abs log ≤ 2 ^ 48 }
    ensures { unsigned_abs result ≤ 2 ^ 48 }
{
    (log * HALF_OF_ROOT) >> 40
}

/// A number times the logarithm of the attraction term, kept to the range.
pub fn pulled(growth: i128, log: i128) -> i128
    requires growth { unsigned_abs growth ≤ 2 ^ 63 }
    requires log { unsigned_abs log ≤ 2 ^ 48 }
    ensures { unsigned_abs result ≤ 2 ^ 60 }
{
    kept((growth * log) >> 40)
}
