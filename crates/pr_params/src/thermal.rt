//! The gas constant times the temperature, which makes joules of energies in units of RT.

ghost use Rattle.std.specs.Prelude.{◌≡◌, ◌*◌, ◌/◌, ◌^◌, ◌≤◌, pos};
ghost use Rattle.log_laws.specs.Between.{IsBetween};
ghost use Rattle.log_laws.specs.Interval.{ends_of};
ghost use Rattle.log_laws.specs.Whole.{ceil_quotient};
ghost use Rattle.pr_params.specs.Thermal.{gas_constant, gas_constant_scale, thermal_energy};

use crate::naturals::interval;
use fix_interval::ratio_ends;
use log_laws::Iv;

/// R in 10^-14 J/(mol K), exact in the SI since 2019.
const GAS_CONSTANT: u128 = 831_446_261_815_324;

/// The scale of [`GAS_CONSTANT`].
const GAS_CONSTANT_SCALE: u128 = 100_000_000_000_000;

/// RT of one mole at least and at most, in 2^-20 mJ, at a temperature in mK from 50,000 to 1,500,000.
pub fn rt(t: u32) -> Iv
    requires cold { 50000 ≤ t }
    requires hot { t ≤ 1500000 }
    ensures lo { result.lo ≡ pos (gas_constant * t * 2 ^ 20 / gas_constant_scale) }
    ensures hi { result.hi ≡ pos (ceil_quotient (gas_constant * t * 2 ^ 20) gas_constant_scale) }
    ensures holds { IsBetween (ends_of result) (2 ^ 20) (thermal_energy t) }
{
    let (lo, hi) = ratio_ends(GAS_CONSTANT * t as u128, GAS_CONSTANT_SCALE, 20);
    interval(lo, hi)
}
