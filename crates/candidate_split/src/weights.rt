//! How strongly a phase draws the components.

ghost use Rattle.std.specs.Prelude.{◌≡◌, ◌≤◌, ◌<◌, ◌^◌, IsTrue};
ghost use Rattle.case_types.specs.Ranges.{is_each_up_to};

use crate::coefficients::Coefficients;
use case_types::SLOTS;
use log_enclose::exp2_near;

/// The greatest weight, in 2^-32.
const MOST: u128 = 1 << 32;

/// How strongly a phase draws the components against the phase that draws them most, in 2^-32, and 0 for components that
/// aren't live.
#[derive(Clone, Copy)]
pub struct Weights {
    of: [u64; SLOTS],
    pub ghost small: { IsTrue (is_each_up_to 4 of (2 ^ 32)) },
}

impl Default for Weights {
    /// Nothing is drawn.
    fn default() -> Weights {
        Weights { of: [0; SLOTS] }
    }
}

impl Weights {
    /// Those of a phase of `n` components, from its fugacity coefficients and the least ones of all phases.
    pub fn against(n: u8, least: &Coefficients, own: &Coefficients) -> Weights {
        Weights {
            of: [
                weight(n, least, own, 0),
                weight(n, least, own, 1),
                weight(n, least, own, 2),
                weight(n, least, own, 3),
            ],
        }
    }

    /// The weight of the component `i`, in 2^-32.
    pub fn at(&self, i: usize) -> u64
        requires { i < 4 }
        ensures { result ≤ 2 ^ 32 }
    {
        self.of[i]
    }
}

/// The weight of the component `i` of `n`: nearly the least coefficient over its own.
fn weight(n: u8, least: &Coefficients, own: &Coefficients, i: u8) -> u64
    requires { i < 4 }
    ensures { result ≤ 2 ^ 32 }
{
    if i < n {
        let power = least.log(i as usize) - own.log(i as usize);
        exp2_near(power as i128).min(MOST) as u64
    } else {
        0
    }
}
