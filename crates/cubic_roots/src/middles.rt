//! The middles of the parameters over a box of compositions.

ghost use Rattle.std.specs.Prelude.{◌≡◌, ◌≤◌, ◌<◌, ◌+◌, ◌-◌, ◌*◌, ◌/◌, ◌^◌, pos};
ghost use Rattle.case_types.specs.Arithmetic.Numbers.{numbers_of};
ghost use Rattle.case_types.specs.Arithmetic.Bounds.{box_of, covolume_scale};
ghost use Rattle.cubic_roots.specs.Pressures.{middle_covolume, middle_ratio};

use case_types::BoxX;
use pr_params::{Params, b_range, g_hi, g_lo};

/// 1 in 2^-40.
pub const ONE: u64 = 1 << 40;

/// The middles of the parameters over a box of compositions.
#[derive(Clone, Copy)]
pub struct Middles {
    /// The reduced co-volume, in 2^-40.
    pub covolume: u64,
    /// The reduced attraction over it, in 2^-40.
    pub ratio: u64,
    pub ghost some: { 1 ≤ covolume },
    pub ghost small: { covolume ≤ 2 ^ 45 },
    pub ghost weak: { ratio ≤ 2 ^ 47 },
}

/// The middles over a box.
pub fn middles_over(params: &Params, x: &BoxX) -> Middles
    ensures covolume { pos result.covolume ≡ middle_covolume (numbers_of params.now.case) (box_of x.now) }
    ensures ratio { pos result.ratio ≡ middle_ratio (numbers_of params.now.case) (box_of x.now) }
{
    Middles {
        covolume: middle_of_covolume(params, x),
        ratio: middle_of_ratio(params, x),
    }
}

/// The middle of the reduced co-volume, in 2^-40.
fn middle_of_covolume(params: &Params, x: &BoxX) -> u64
    ensures value { pos result ≡ middle_covolume (numbers_of params.now.case) (box_of x.now) }
    ensures some { 1 ≤ result }
    ensures small { result ≤ 2 ^ 45 }
{
    let ends = b_range(params, x);
    middle_at_scale(ends.lo as u128, ends.hi as u128, params.volume_scale())
}

/// The middle of two ends over a scale, rounded down.
fn middle_at_scale(lo: u128, hi: u128, scale: u128) -> u64
    requires lo { 2 ^ 50 ≤ lo }
    requires ordered { lo ≤ hi }
    requires hi { hi ≤ 2 ^ 61 }
    requires scale_low { 2 ^ 16 ≤ scale }
    requires scale_high { scale ≤ 2 ^ 45 }
    ensures value { result ≡ (lo + hi) / (2 * scale) }
    ensures some { 1 ≤ result }
    ensures small { result ≤ 2 ^ 45 }
{
    ((lo + hi) / (2 * scale)) as u64
}

/// The middle of the reduced attraction over the co-volume, in 2^-40.
fn middle_of_ratio(params: &Params, x: &BoxX) -> u64
    ensures value { pos result ≡ middle_ratio (numbers_of params.now.case) (box_of x.now) }
    ensures weak { result ≤ 2 ^ 47 }
{
    middle(g_lo(params, x) as u64, g_hi(params, x) as u64)
}

/// The middle of two numbers, rounded down.
fn middle(lo: u64, hi: u64) -> u64
    requires lo { lo ≤ 2 ^ 47 }
    requires hi { hi ≤ 2 ^ 47 }
    ensures value { result ≡ (lo + hi) / 2 }
    ensures weak { result ≤ 2 ^ 47 }
{
    (lo + hi) / 2
}
