//! Energies in joules.

ghost use Rattle.std.specs.Prelude.{◌≡◌, ◌*◌, ◌/◌, ◌<◌, ◌≤◌, ◌^◌, pos};
ghost use Rattle.log_laws.specs.Whole.{ceil_quotient};
ghost use Rattle.report_text.specs.Joules.{millijoules};

use pr_params::{LOG_E_LO, rt};

/// An energy in 2^-40 bit as mJ of one mole, rounded up, at a temperature in mK from 50,000 to 1,500,000.
///
/// A bit is RT ln 2, and ln 2 is 1 over log2 e: RT is taken at its upper end and log2 e at its lower.
pub fn millijoules(energy: i128, t: u32) -> i128
    requires cold { 50000 ≤ t }
    requires hot { t ≤ 1500000 }
    ensures { result ≡ millijoules energy t (pos LOG_E_LO) }
{
    let heat = rt(t).hi as u128;
    let size = energy.unsigned_abs();
    if energy < 0 {
        -(over_bits_down(size, heat) as i128)
    } else {
        over_bits_up(size, heat) as i128
    }
}

/// 2^20 times log2 e at least, in 2^-40.
const DIVISOR: u128 = LOG_E_LO << 20;

/// `n` times `heat` over [`DIVISOR`], rounded down: the quotient of `n` and its rest apart, since the product may be past 128
/// bits.
fn over_bits_down(n: u128, heat: u128) -> u128
    requires { heat < 2 ^ 44 }
    ensures value { result ≡ n * heat / DIVISOR }
    ensures small { result < 2 ^ 113 }
{
    n / DIVISOR * heat + n % DIVISOR * heat / DIVISOR
}

/// `n` times `heat` over [`DIVISOR`], rounded up, likewise.
fn over_bits_up(n: u128, heat: u128) -> u128
    requires { heat < 2 ^ 44 }
    ensures value { result ≡ ceil_quotient (n * heat) DIVISOR }
    ensures small { result < 2 ^ 113 }
{
    n / DIVISOR * heat + (n % DIVISOR * heat).div_ceil(DIVISOR)
}
