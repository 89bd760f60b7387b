//! Shares of energies.

ghost use Rattle.std.specs.Prelude.{◌≡◌, ◌≤◌, ◌<◌, ◌^◌, pos, ◌+ℤ◌, ◌*ℤ◌, unsigned_abs};
ghost use Rattle.log_laws.specs.Whole.{ceil_div, floor_div, ceil_quotient};
ghost use Rattle.case_types.specs.Arithmetic.Splits.{share_of_energy};

use fix_interval::ratio_ends;

/// The energy of some parts of a sum, by their share: at most this, in 2^-40 bit for a mole of the sum, where a mole of the
/// parts has at most `energy`.
pub fn energy_share(parts: u128, sum: u128, energy: i128) -> i128
    requires some { 1 ≤ sum }
    requires inside { parts ≤ sum }
    requires sum { sum < 2 ^ 104 }
    requires energy { unsigned_abs energy ≤ 2 ^ 106 }
    ensures value { result ≡ share_of_energy parts sum energy }
    ensures small { unsigned_abs result ≤ 2 ^ 107 }
{
    let (least, greatest) = ratio_ends(parts, sum, 60);
    shared(if energy >= 0 { greatest } else { least }, energy)
}

/// A share in 2^-60 of an energy, rounded up.
fn shared(share: u128, energy: i128) -> i128
    requires share { share ≤ 2 ^ 60 }
    requires energy { unsigned_abs energy ≤ 2 ^ 106 }
    ensures value { result ≡ ceil_div (pos share *ℤ energy) (pos (2 ^ 60)) }
    ensures small { unsigned_abs result ≤ 2 ^ 107 }
{
    let whole = whole_part(energy);
    part(share, whole) + raised(share * rest_part(energy, whole)) as i128
}

/// The whole part of a number in 2^-60.
fn whole_part(energy: i128) -> i128
    requires { unsigned_abs energy ≤ 2 ^ 106 }
    ensures value { result ≡ floor_div energy (pos (2 ^ 60)) }
    ensures small { unsigned_abs result ≤ 2 ^ 46 }
{
    energy >> 60
}

/// What is left of a number in 2^-60 beside its whole part.
fn rest_part(energy: i128, whole: i128) -> u128
    requires energy { unsigned_abs energy ≤ 2 ^ 106 }
    requires whole { whole ≡ floor_div energy (pos (2 ^ 60)) }
    ensures value { pos result +ℤ whole *ℤ pos (2 ^ 60) ≡ energy }
    ensures small { result < 2 ^ 60 }
{
    (energy - whole * (1 << 60)) as u128
}

/// A share of a whole number.
fn part(share: u128, whole: i128) -> i128
    requires share { share ≤ 2 ^ 60 }
    requires whole { unsigned_abs whole ≤ 2 ^ 46 }
    ensures value { result ≡ pos share *ℤ whole }
    ensures small { unsigned_abs result ≤ 2 ^ 106 }
{
    share as i128 * whole
}

/// A number in 2^-60, rounded up.
fn raised(x: u128) -> u128
    requires { x ≤ 2 ^ 120 }
    ensures value { result ≡ ceil_quotient x (2 ^ 60) }
    ensures small { result ≤ 2 ^ 60 }
{
    x.div_ceil(1 << 60)
}
