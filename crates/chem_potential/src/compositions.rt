//! The composition of a phase.

ghost use Rattle.std.specs.Prelude.{◌≤◌, ◌<◌, ◌^◌, unsigned_abs};

use crate::kept::kept;
use crate::terms::log_of;
use case_types::{Phase, SLOTS};
use fix_interval::ratio_floor;

/// 1 in 2^-60.
const ONE: u128 = 1 << 60;

/// The logarithm that stands for that of a fraction of 0, in 2^-40.
const LOG_OF_NONE: i128 = -20 << 40;

/// The most parts of a component that are counted.
const MOST_PARTS: u128 = 1 << 104;

/// The fractions of the first `n` components of the phase, in 2^-60 and rounded down, and 0 for the others.
pub fn fractions(n: u8, phase: &Phase) -> [u128; SLOTS] {
    let sum = moles(n, phase);
    [
        fraction(part_of(n, phase, 0), sum),
        fraction(part_of(n, phase, 1), sum),
        fraction(part_of(n, phase, 2), sum),
        fraction(part_of(n, phase, 3), sum),
    ]
}

/// The fraction of the component `i`, kept to at most 1.
pub fn fraction_at(x: &[u128; SLOTS], i: u8) -> u128
    requires { i < 4 }
    ensures { result ≤ 2 ^ 60 }
{
    x[i as usize].min(ONE)
}

/// The parts of the component `i` of `n`, kept to the range of a phase of a split, and 0 for one that isn't live.
fn part_of(n: u8, phase: &Phase, i: u8) -> u128
    requires { i < 4 }
    ensures { result ≤ 2 ^ 104 }
{
    if i < n {
        phase.parts[i as usize].min(MOST_PARTS)
    } else {
        0
    }
}

/// How many parts the first `n` components have together, and 1 where there are none.
fn moles(n: u8, phase: &Phase) -> u128
    ensures low { 1 ≤ result }
    ensures high { result ≤ 2 ^ 106 }
{
    let first = part_of(n, phase, 0) + part_of(n, phase, 1);
    let last = part_of(n, phase, 2) + part_of(n, phase, 3);
    (first + last).max(1)
}

/// A part over a sum, in 2^-60, rounded down and kept to at most 1.
fn fraction(part: u128, sum: u128) -> u128
    requires low { 1 ≤ sum }
    requires high { sum ≤ 2 ^ 106 }
    ensures { result ≤ 2 ^ 60 }
{
    ratio_floor(part.min(sum), sum, 60)
}

/// The logarithms of the fractions of the first `n` components, in 2^-40, and -20 for a fraction of 0.
pub fn log_fractions(n: u8, phase: &Phase) -> [i128; SLOTS] {
    let sum = log_of_many(moles(n, phase));
    [
        log_fraction(part_of(n, phase, 0), sum),
        log_fraction(part_of(n, phase, 1), sum),
        log_fraction(part_of(n, phase, 2), sum),
        log_fraction(part_of(n, phase, 3), sum),
    ]
}

/// The logarithm of the fraction of the component `i`, kept to the range.
pub fn log_fraction_at(logs: &[i128; SLOTS], i: u8) -> i128
    requires { i < 4 }
    ensures { unsigned_abs result ≤ 2 ^ 60 }
{
    kept(logs[i as usize])
}

/// The logarithm of a part less that of the sum, and -20 for no part.
fn log_fraction(part: u128, sum: i128) -> i128
    requires part { part ≤ 2 ^ 106 }
    requires sum { unsigned_abs sum ≤ 2 ^ 61 }
{
    if part == 0 {
        LOG_OF_NONE
    } else {
        log_of_many(part) - sum
    }
}

/// The logarithm of a positive number, in 2^-40. Of a large one the last digits are left out.
fn log_of_many(n: u128) -> i128
    requires low { 1 ≤ n }
    requires high { n ≤ 2 ^ 106 }
    ensures { unsigned_abs result ≤ 2 ^ 61 }
{
    if n <= 1 << 61 {
        log_of(n, 0)
    } else if n <= 1 << 83 {
        log_of(n >> 22, 0) + (22 << 40)
    } else {
        log_of(n >> 45, 0) + (45 << 40)
    }
}
