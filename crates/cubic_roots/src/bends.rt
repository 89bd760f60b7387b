//! Where the pressure bends: the packing fractions that part the dilute root from the dense one.

ghost use Rattle.std.specs.Prelude.{◌≡◌, ◌≤◌, ◌<◌, ◌+◌, ◌*◌, ◌/◌, ◌⊎◌, ◌^◌, true, false, min, max};
ghost use Rattle.cubic_roots.specs.Middles.{bend, is_above};

use crate::middles::{Middles, ONE};

/// 0.25308 in 2^-40: there the slope of `y*y/(1+2*y-y*y)` over that of `y/(1-y)` is greatest, so that with rising attraction
/// the pressure first falls there.
const BEND: u64 = 278_264_000_000;

/// So many halvings of the whole range leave neighbours in 2^-40.
const HALVINGS: u32 = 40;

/// Two packing fractions in 2^-40. The pressure has a root below the first one, or one from the second one on. They are one
/// where the pressure rises all along, and else it falls between them.
pub fn bends(middles: &Middles) -> (u64, u64)
    ensures some { 1 ≤ result.0 }
    ensures ordered { result.0 ≤ result.1 }
    ensures inside { result.1 < 2 ^ 40 }
    ensures either { (is_above middles.now result.0 ≡ true) ⊎ (is_above middles.now result.1 ≡ false) }
{
    if middles.is_above(BEND) {
        (BEND, turn(middles, ONE - 1))
    } else {
        (turn(middles, 1), BEND)
    }
}

/// Where the pressure rises again, in 2^-40, between the bend and an end of the range; the bend itself where it rises there.
fn turn(middles: &Middles, end: u64) -> u64
    requires some { 1 ≤ end }
    requires inside { end < 2 ^ 40 }
    ensures low { min bend end ≤ result }
    ensures high { result ≤ max bend end }
{
    if rises(middles, BEND) {
        return BEND;
    }
    let mut falls = BEND;
    let mut rises_at = end;
    for _ in 0..HALVINGS {
        let middle = (falls + rises_at) / 2;
        if rises(middles, middle) {
            rises_at = middle;
        } else {
            falls = middle;
        }
    }
    falls
}

/// Whether the pressure rises at the packing fraction `y` in 2^-40, nearly; nothing that is promised rests on it.
///
/// The slope of `y/(1-y)` is `1/(1-y)^2`, and that of `y*y/(1+2*y-y*y)` is `2*y*(1+y)/(1+2*y-y*y)^2`: it rises where
/// `(1+2*y-y*y)^2` is above `2*G*y*(1+y)*(1-y)^2`.
fn rises(middles: &Middles, y: u64) -> bool
    requires { y < 2 ^ 40 }
{
    stretch(y) > times(2 * middles.ratio, sag(y))
}

/// `(1+2*y-y*y)^2` in 2^-40.
fn stretch(y: u64) -> u64
    requires { y < 2 ^ 40 }
{
    let root = ONE + 2 * y - times(y, y);
    times(root, root)
}

/// `y*(1+y)*(1-y)^2` in 2^-40.
fn sag(y: u64) -> u64
    requires { y < 2 ^ 40 }
    ensures { result ≤ 2 ^ 41 }
{
    let rest = ONE - y;
    times(times(ONE + y, y), times(rest, rest))
}

/// A product in 2^-40, rounded down.
fn times(a: u64, b: u64) -> u64
    requires a { a ≤ 2 ^ 48 }
    requires b { b ≤ 2 ^ 42 }
    ensures value { result ≡ a * b / 2 ^ 40 }
    ensures shorter { b ≤ 2 ^ 40 → result ≤ a }
{
    ((a as u128 * b as u128) >> 40) as u64
}
