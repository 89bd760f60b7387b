//! Means of the co-volumes and of the attractions, by the lower ends of the parameters.

ghost use Rattle.std.specs.Prelude.{◌≤◌, ◌<◌, ◌^◌};

use crate::compositions::fraction_at;
use case_types::SLOTS;
use log_laws::Iv;
use pr_params::Params;

/// The least co-volume that is divided by.
const LEAST: u128 = 1 << 49;

/// The greatest mean.
const GREATEST: u128 = 1 << 61;

/// The mean of the co-volumes, in 2^-(56+lift), kept to the range.
pub fn mean_covolume(params: &Params, x: &[u128; SLOTS]) -> u128
    ensures low { 2 ^ 49 ≤ result }
    ensures high { result ≤ 2 ^ 61 }
{
    let first = part(fraction_at(x, 0), covolume(params, 0))
        + part(fraction_at(x, 1), covolume(params, 1));
    let last = part(fraction_at(x, 2), covolume(params, 2))
        + part(fraction_at(x, 3), covolume(params, 3));
    ((first + last) >> 60).clamp(LEAST, GREATEST)
}

/// The means over the second component of the attractions to each first one, in 2^-(49+lift).
pub fn pulls(params: &Params, x: &[u128; SLOTS]) -> [u128; SLOTS] {
    [
        pull_on(params, x, 0),
        pull_on(params, x, 1),
        pull_on(params, x, 2),
        pull_on(params, x, 3),
    ]
}

/// The mean of the attractions over all pairs, in 2^-(49+lift), from the means by the first component.
pub fn mean_attraction(x: &[u128; SLOTS], pulls: &[u128; SLOTS]) -> u128
    ensures { result ≤ 2 ^ 61 }
{
    let first = part(fraction_at(x, 0), pull_at(pulls, 0))
        + part(fraction_at(x, 1), pull_at(pulls, 1));
    let last = part(fraction_at(x, 2), pull_at(pulls, 2))
        + part(fraction_at(x, 3), pull_at(pulls, 3));
    ((first + last) >> 60).min(GREATEST)
}

/// The mean of the attractions to the component `i`, kept to the range.
pub fn pull_at(pulls: &[u128; SLOTS], i: u8) -> u128
    requires { i < 4 }
    ensures { result ≤ 2 ^ 61 }
{
    pulls[i as usize].min(GREATEST)
}

/// The mean of the attractions to the component `i`.
fn pull_on(params: &Params, x: &[u128; SLOTS], i: u8) -> u128
    ensures { result ≤ 2 ^ 63 }
{
    let first = part(fraction_at(x, 0), attraction(params, i, 0))
        + part(fraction_at(x, 1), attraction(params, i, 1));
    let last = part(fraction_at(x, 2), attraction(params, i, 2))
        + part(fraction_at(x, 3), attraction(params, i, 3));
    (first + last) >> 60
}

/// A fraction times a number.
fn part(fraction: u128, number: u128) -> u128
    requires fraction { fraction ≤ 2 ^ 60 }
    requires number { number ≤ 2 ^ 61 }
    ensures { result ≤ 2 ^ 121 }
{
    fraction * number
}

/// The co-volume of the component `i`, and 0 for one that isn't live.
pub fn covolume(params: &Params, i: u8) -> u128
    ensures { result ≤ 2 ^ 61 }
{
    if i < params.case.n {
        lower_end(params.b[i as usize])
    } else {
        0
    }
}

/// The attraction of two components, and 0 if one isn't live.
fn attraction(params: &Params, i: u8, j: u8) -> u128
    ensures { result ≤ 2 ^ 61 }
{
    if i >= params.case.n || j >= params.case.n {
        return 0;
    }
    match params.a.get(i as usize) {
        Some(row) => lower_end(row[j as usize]),
        None => 0,
    }
}

/// The lower end of a parameter, kept to the range.
fn lower_end(ends: Iv) -> u128
    ensures { result ≤ 2 ^ 61 }
{
    ends.lo.clamp(0, GREATEST as i128) as u128
}
