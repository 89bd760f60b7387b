//! Roots of fractions.

ghost use Rattle.std.specs.Prelude.{◌≡◌, ◌≢◌, ◌-◌, ◌*◌, ◌^◌, ◌<◌, ◌≤◌, pos, ◌+ℤ◌};
ghost use Rattle.log_laws.specs.Interval.{ends_of};
ghost use Rattle.log_laws.specs.Roots.{root_ends, square_times};

use super::whole::isqrt;
use log_laws::Iv;

/// `num` times 4^`scale`.
fn scaled(num: u128, scale: u32) -> u128
    requires { num * 4 ^ scale < 2 ^ 126 }
    ensures { result ≡ num * 4 ^ scale }
{
    if num == 0 { 0 } else { num << (2 * scale) }
}

/// The root of `num`/`den`, between ends over the scale 2^`scale`: the lower one is rounded down,
/// the upper one up. The ends are one number where that is the root, and neighbours elsewhere.
///
/// `ends_fit` says that the root is at most 2^62 - 1 over the scale, and so that both ends are of
/// size below 2^62.
pub fn root_iv(num: u128, den: u128, scale: u32) -> Iv
    requires positive { 1 ≤ den }
    requires num_fits { num * 4 ^ scale < 2 ^ 126 }
    requires ends_fit { num * 4 ^ scale ≤ square_times (pos (2 ^ 62 - 1)) den }
    ensures ends { ends_of result ≡ root_ends num den scale }
    ensures square { square_times result.lo den ≤ num * 4 ^ scale }
    ensures next_square { num * 4 ^ scale < square_times (result.lo +ℤ pos 1) den }
    ensures exact { square_times result.lo den ≡ num * 4 ^ scale → result.hi ≡ result.lo }
    ensures inexact { square_times result.lo den ≢ num * 4 ^ scale →
        result.hi ≡ result.lo +ℤ pos 1 }
    ensures covers { num * 4 ^ scale ≤ square_times result.hi den }
{
    let scaled = scaled(num, scale);
    let floor = u128::from(isqrt(scaled / den));
    let ceiling = if floor * floor * den == scaled {
        floor
    } else {
        floor + 1
    };
    Iv {
        lo: floor as i128,
        hi: ceiling as i128,
    }
}
