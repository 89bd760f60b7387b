//! Near fugacity coefficients.

ghost use Rattle.std.specs.Prelude.{◌≤◌, ◌<◌, ◌^◌, ◌+◌, IsTrue, unsigned_abs};
ghost use Rattle.case_types.specs.Ranges.{is_each_below};

use case_types::{Phase, SLOTS};
use chem_potential::mu_near;
use log_enclose::log2_lo;
use pr_params::Params;

/// The most parts of a component that are counted.
const MOST_PARTS: u128 = 1 << 40;

/// Near logarithms of the fugacity coefficients of the components of a phase, in 2^-40 bit, and 0 for those that aren't live:
/// the chemical potentials less the logarithms of the fractions.
///
/// How near they are is not promised.
#[derive(Clone, Copy)]
pub struct Coefficients {
    logs: [i64; SLOTS],
    pub ghost small: { IsTrue (is_each_below 4 logs (2 ^ 61)) },
}

impl Default for Coefficients {
    /// Those of an ideal mixture, which are 1.
    fn default() -> Coefficients {
        Coefficients { logs: [0; SLOTS] }
    }
}

impl Coefficients {
    /// Those of a phase. A part of 0 counts as 1, and more than 2^40 parts count as 2^40.
    pub fn of(params: &Params, phase: &Phase) -> Coefficients {
        let potentials = mu_near(params, phase);
        let sum = log_of(moles(params.case.n, phase));
        Coefficients {
            logs: [
                coefficient(params.case.n, phase, &potentials, sum, 0),
                coefficient(params.case.n, phase, &potentials, sum, 1),
                coefficient(params.case.n, phase, &potentials, sum, 2),
                coefficient(params.case.n, phase, &potentials, sum, 3),
            ],
        }
    }

    /// The logarithm of that of the component `i`.
    pub fn log(&self, i: usize) -> i64
        requires { i < 4 }
        ensures { unsigned_abs result < 2 ^ 61 }
    {
        self.logs[i]
    }

    /// The means with others.
    pub fn mean(&self, other: &Coefficients) -> Coefficients {
        Coefficients {
            logs: [
                halfway(self.log(0), other.log(0)),
                halfway(self.log(1), other.log(1)),
                halfway(self.log(2), other.log(2)),
                halfway(self.log(3), other.log(3)),
            ],
        }
    }

    /// The lesser ones of these and others.
    pub fn lesser(&self, other: &Coefficients) -> Coefficients {
        Coefficients {
            logs: [
                lesser_of(self.log(0), other.log(0)),
                lesser_of(self.log(1), other.log(1)),
                lesser_of(self.log(2), other.log(2)),
                lesser_of(self.log(3), other.log(3)),
            ],
        }
    }
}

/// The mean of two logarithms, rounded down.
fn halfway(a: i64, b: i64) -> i64
    requires first { unsigned_abs a < 2 ^ 61 }
    requires second { unsigned_abs b < 2 ^ 61 }
    ensures { unsigned_abs result < 2 ^ 61 }
{
    (a + b) >> 1
}

/// The lesser of two logarithms.
fn lesser_of(a: i64, b: i64) -> i64
    requires first { unsigned_abs a < 2 ^ 61 }
    requires second { unsigned_abs b < 2 ^ 61 }
    ensures { unsigned_abs result < 2 ^ 61 }
{
    a.min(b)
}

/// The logarithm of the fugacity coefficient of the component `i` of `n`, from the potentials and the logarithm of the sum.
fn coefficient(n: u8, phase: &Phase, potentials: &[i128; SLOTS], sum: i64, i: u8) -> i64
    requires inside { i < 4 }
    requires potentials { IsTrue (is_each_below 4 potentials.now (2 ^ 60 + 1)) }
    requires sum { unsigned_abs sum ≤ 2 ^ 47 }
    ensures { unsigned_abs result < 2 ^ 61 }
{
    if i < n {
        potential_at(potentials, i) - log_of(part_of(n, phase, i)) + sum
    } else {
        0
    }
}

/// The potential of the component `i`.
fn potential_at(potentials: &[i128; SLOTS], i: u8) -> i64
    requires inside { i < 4 }
    requires potentials { IsTrue (is_each_below 4 potentials.now (2 ^ 60 + 1)) }
    ensures { unsigned_abs result ≤ 2 ^ 60 }
{
    potentials[i as usize] as i64
}

/// The parts of the component `i` of `n`, from 1 to 2^40, and 0 for one that isn't live.
fn part_of(n: u8, phase: &Phase, i: u8) -> u64
    requires { i < 4 }
    ensures live { i < n → 1 ≤ result }
    ensures few { result ≤ 2 ^ 40 }
{
    if i < n {
        phase.parts[i as usize].clamp(1, MOST_PARTS) as u64
    } else {
        0
    }
}

/// How many parts the first `n` components have together.
fn moles(n: u8, phase: &Phase) -> u64
    requires { 1 ≤ n }
    ensures some { 1 ≤ result }
    ensures few { result ≤ 2 ^ 42 }
{
    part_of(n, phase, 0) + part_of(n, phase, 1) + part_of(n, phase, 2) + part_of(n, phase, 3)
}

/// Nearly the logarithm of a whole number, in 2^-40.
fn log_of(n: u64) -> i64
    requires some { 1 ≤ n }
    requires few { n ≤ 2 ^ 42 }
    ensures { unsigned_abs result ≤ 2 ^ 47 }
{
    log2_lo(n as u128, 0) as i64
}
