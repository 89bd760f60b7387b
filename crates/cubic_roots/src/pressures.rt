//! Whether the pressure at a packing fraction is above that of the case.

ghost use Rattle.std.specs.Prelude.{◌≡◌, ◌≤◌, ◌<◌, ◌+◌, ◌-◌, ◌*◌, ◌/◌, ◌^◌};
ghost use Rattle.cubic_roots.specs.Middles.{is_above};

use crate::middles::{Middles, ONE};

impl Middles {
    /// Whether the pressure at the packing fraction `y` in 2^-40 is above that of the case.
    pub fn is_above(&self, y: u64) -> bool
        requires { y < 2 ^ 40 }
        ensures { result ≡ is_above self.now y }
    {
        self.covolume as u128 + pull(self.ratio, y) < push(y)
    }
}

/// What the size of the molecules adds to the pressure: `y/(1-y)`, rounded down, in 2^-40.
fn push(y: u64) -> u128
    requires { y < 2 ^ 40 }
    ensures value { result ≡ y * 2 ^ 40 / (2 ^ 40 - y) }
    ensures small { result < 2 ^ 80 }
{
    (y as u128 * ONE as u128) / (ONE - y) as u128
}

/// What the attraction of the molecules takes from it: `ratio*y*y/(1+2*y-y*y)`, rounded down, in 2^-40.
fn pull(ratio: u64, y: u64) -> u128
    requires weak { ratio ≤ 2 ^ 47 }
    requires inside { y < 2 ^ 40 }
    ensures value { result ≡ ratio * (y * y) / (2 ^ 80 + 2 * y * 2 ^ 40 - y * y) }
    ensures small { result ≤ 2 ^ 47 }
{
    let square = square(y);
    ratio as u128 * square / ((1 << 80) + 2 * y as u128 * ONE as u128 - square)
}

/// The square of a packing fraction, in 2^-80.
fn square(y: u64) -> u128
    requires { y < 2 ^ 40 }
    ensures value { result ≡ y * y }
    ensures small { result ≤ 2 ^ 80 }
{
    y as u128 * y as u128
}
