//! Single numbers of a case.

ghost use Rattle.std.specs.Prelude.{◌≡◌, ◌≤◌, ◌<◌, ◌*◌, ◌^◌, pos, ◌≤ℤ◌};
ghost use Rattle.log_laws.specs.Interval.{ends_of};
ghost use Rattle.case_types.specs.Arithmetic.Numbers.{numbers_of};
ghost use Rattle.case_types.specs.Arithmetic.Bounds.{covolume_scale};
ghost use Rattle.case_types.specs.Arithmetic.Tables.{ends_at, ends_of_pair};

use crate::numbers::Params;
use log_laws::Iv;

impl Params {
    /// How many bits the reduced co-volumes are raised by.
    pub fn raised_by(&self) -> u32
        ensures value { result ≡ (numbers_of self.now.case).lift }
        ensures small { result ≤ 29 }
    {
        self.lift
    }

    /// What a packing fraction is multiplied by before `b` is divided by it: 2 to the power `16+lift`.
    pub fn volume_scale(&self) -> u128
        ensures value { result ≡ covolume_scale (numbers_of self.now.case) }
        ensures low { 2 ^ 16 ≤ result }
        ensures high { result ≤ 2 ^ 45 }
    {
        1 << (16 + self.raised_by())
    }

    /// A packing fraction, which isn't 0, times that.
    pub fn scaled(&self, y: u64) -> u128
        requires some { 1 ≤ y }
        requires inside { y ≤ 2 ^ 40 }
        ensures value { result ≡ y * covolume_scale (numbers_of self.now.case) }
        ensures low { 2 ^ 16 ≤ result }
        ensures high { result ≤ 2 ^ 85 }
        ensures at_half { y ≡ 2 ^ 39 → 2 ^ 55 ≤ result }
    {
        scaled(y, self.volume_scale())
    }
}

/// A packing fraction times a scale.
fn scaled(y: u64, scale: u128) -> u128
    requires some { 1 ≤ y }
    requires inside { y ≤ 2 ^ 40 }
    requires low { 2 ^ 16 ≤ scale }
    requires high { scale ≤ 2 ^ 45 }
    ensures value { result ≡ y * scale }
    ensures low { 2 ^ 16 ≤ result }
    ensures high { result ≤ 2 ^ 85 }
    ensures at_half { y ≡ 2 ^ 39 → 2 ^ 55 ≤ result }
{
    y as u128 * scale
}

/// The reduced co-volume of a component, in `2^-(56+lift)`.
pub fn covolume_of(params: &Params, i: u8) -> Iv
    requires { i < params.now.case.n }
    ensures ends { ends_of result ≡ ends_at (numbers_of params.now.case).covolumes i }
    ensures low { pos (2 ^ 50) ≤ℤ result.lo }
    ensures high { result.hi ≤ℤ pos (2 ^ 61) }
{
    params.b[i as usize]
}

/// The reduced attraction of two components, in `2^-(49+lift)`.
pub fn attraction_of(params: &Params, i: u8, j: u8) -> Iv
    requires first { i < params.now.case.n }
    requires second { j < params.now.case.n }
    ensures ends { ends_of result ≡ ends_of_pair (numbers_of params.now.case).attractions i j }
    ensures low { pos 0 ≤ℤ result.lo }
    ensures high { result.hi ≤ℤ pos (2 ^ 61) }
{
    match params.a.get(i as usize) {
        Some(row) => row[j as usize],
        None => unreachable!(),
    }
}

/// The greatest attraction over a co-volume, in 2^-40.
pub fn greatest_of(params: &Params) -> i128
    ensures value { result ≡ (numbers_of params.now.case).rho }
    ensures low { pos 0 ≤ℤ result }
    ensures high { result ≤ℤ pos (2 ^ 47) }
{
    params.rho
}
