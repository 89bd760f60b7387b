//! Numbers of the lines of a head, each held to a range.

ghost use Rattle.std.specs.Prelude.{◌≡◌, ◌≤◌, ◌<◌, ◌+◌, ◌^◌, ◌-◌, ◌&&◌, ◌≤ℤ◌, int_le, pos, ℤ, neg_ℤ, unsigned_abs, IsTrue};
ghost use Rattle.log_laws.specs.Interval.{ends_of};
ghost use Rattle.cert_lines.specs.Indices.{number_on};
ghost use Rattle.cert_format.specs.Building.{held, natural, bounded, end_limit, ends_on, energy_on};

use cert_lines::{LineReader, Place};
use log_laws::Iv;

/// The number is in the range.
fn is_within(low: i128, high: i128, z: i128) -> bool
    ensures exact { result ≡ (int_le low z && int_le z high) }
    ensures low { IsTrue result → low ≤ℤ z }
    ensures high { IsTrue result → z ≤ℤ high }
{
    low <= z && z <= high
}

/// A number of the range, which is its low end for all others.
pub fn held(low: i128, high: i128, z: i128) -> i128
    requires { low ≤ℤ high }
    ensures value { result ≡ held low high z }
    ensures low { low ≤ℤ result }
    ensures high { result ≤ℤ high }
{
    if is_within(low, high, z) { z } else { low }
}

/// A number from `low` to `high`.
pub fn natural(low: u32, high: u32, z: i128) -> u32
    requires { low ≤ high }
    ensures value { result ≡ natural low high z }
    ensures low { low ≤ result }
    ensures high { result ≤ high }
{
    held(i128::from(low), i128::from(high), z) as u32
}

/// A number below 2^104, and at least `low`.
pub fn part(low: u128, z: i128) -> u128
    requires { low ≤ 1 }
    ensures value { result ≡ natural low (2 ^ 104 - 1) z }
    ensures low { low ≤ result }
    ensures high { result < 2 ^ 104 }
{
    held(low as i128, (1 << 104) - 1, z) as u128
}

/// A packing fraction in 2^-40.
pub fn packing(z: i128) -> u64
    ensures value { result ≡ natural 1 (2 ^ 40 - 1) z }
    ensures low { 1 ≤ result }
    ensures high { result < 2 ^ 40 }
{
    held(1, (1 << 40) - 1, z) as u64
}

/// An acentric factor in 1e-4.
pub fn acentric_factor(z: i128) -> i32
    ensures value { result ≡ held (neg_ℤ (pos 5000)) (pos 15000) z }
    ensures low { neg_ℤ (pos 5000) ≤ℤ result }
    ensures high { result ≤ℤ pos 15000 }
{
    held(-5_000, 15_000, z) as i32
}

/// An interaction in 1e-4.
pub fn interaction(z: i128) -> i32
    ensures value { result ≡ bounded 5000 z }
    ensures low { neg_ℤ (pos 5000) ≤ℤ result }
    ensures high { result ≤ℤ pos 5000 }
{
    held(-5_000, 5_000, z) as i32
}

/// An energy or a potential, in 2^-40 bit.
pub fn energy_on(lines: &LineReader, place: Place, at: usize) -> i128
    ensures value { result ≡ energy_on lines.now place at }
    ensures size { unsigned_abs result < 2 ^ 80 }
{
    held(-(1 << 80) + 1, (1 << 80) - 1, lines.number(place, at))
}

/// An end of a pair.
fn end(z: i128) -> i128
    ensures value { result ≡ bounded end_limit z }
    ensures high { result ≤ℤ pos (2 ^ 62 - 1) }
    ensures size { unsigned_abs result < 2 ^ 62 }
{
    held(-(1 << 62) + 1, (1 << 62) - 1, z)
}

/// The end behind a lower one.
fn upper_end(low: i128, z: i128) -> i128
    requires high { low ≤ℤ pos (2 ^ 62 - 1) }
    requires size { unsigned_abs low < 2 ^ 62 }
    ensures value { result ≡ held low (pos end_limit) z }
    ensures ordered { low ≤ℤ result }
    ensures size { unsigned_abs result < 2 ^ 62 }
{
    held(low, (1 << 62) - 1, z)
}

/// The pair of ends of a line, from this number on.
pub fn ends_on(lines: &LineReader, place: Place, at: usize) -> Iv
    requires { at ≤ 2 }
    ensures { ends_of result ≡ ends_on lines.now place at }
{
    let lo = end(lines.number(place, at));
    let hi = upper_end(lo, lines.number(place, at + 1));
    Iv { lo, hi }
}
