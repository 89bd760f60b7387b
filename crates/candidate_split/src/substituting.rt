//! Steps of successive substitution.

ghost use Rattle.std.specs.Prelude.{ℕ, ◌≡◌, ◌≤◌, ◌<◌, ◌^◌, slice_index, unsigned_abs};

use crate::coefficients::Coefficients;
use case_types::{Phase, SLOTS};
use log_enclose::exp2_near;
use pr_params::Params;

/// The greatest size of a difference of potentials: 2^20 bit.
const MOST: i64 = 1 << 60;

/// The greatest size of a potential that is looked at.
const MOST_POTENTIAL: i128 = 1 << 62;

/// One step of successive substitution from a phase toward a tangent plane, whose potentials are in 2^-40 bit: near parts
/// in 2^-32, from 1 to 2^32 for live components and 0 for the others. The greatest is 2^32.
///
/// The part of a component is proportional to 2 to the power of the plane's potential less the logarithm of the fugacity
/// coefficient. This is the substitution of Michelsen, "The isothermal flash problem. Part I. Stability", Fluid Phase
/// Equilibria 9 (1982), pages 1 to 19.
pub fn toward(params: &Params, plane: &[i128; SLOTS], phase: &Phase) -> [u128; SLOTS]
    ensures live { (i : ℕ) → i < params.now.case.n → 1 ≤ slice_index result i }
    ensures small { (i : ℕ) → slice_index result i ≤ 2 ^ 32 }
    ensures rest { (i : ℕ) → params.now.case.n ≤ i → slice_index result i ≡ 0 }
{
    let n = params.case.n;
    let coefficients = Coefficients::of(params, phase);
    let draws = [
        draw(plane[0], coefficients.log(0)),
        draw(plane[1], coefficients.log(1)),
        draw(plane[2], coefficients.log(2)),
        draw(plane[3], coefficients.log(3)),
    ];
    let most = greatest(n, &draws);
    [
        part(n, &draws, most, 0),
        part(n, &draws, most, 1),
        part(n, &draws, most, 2),
        part(n, &draws, most, 3),
    ]
}

/// What draws a component to the phase: its potential less the logarithm of its coefficient, kept to the range.
fn draw(potential: i128, log: i64) -> i64
    requires { unsigned_abs log < 2 ^ 61 }
{
    let potential = potential.clamp(-MOST_POTENTIAL, MOST_POTENTIAL) as i64;
    (potential - log).clamp(-MOST, MOST)
}

/// The greatest of the first `n` draws.
fn greatest(n: u8, draws: &[i64; SLOTS]) -> i64
    requires { n ≤ 4 }
{
    let mut most = draws[0];
    for i in 1..n as usize {
        most = most.max(draws[i]);
    }
    most
}

/// Nearly the part of the component `i` of `n`, in 2^-32, from its draw and the greatest, and 0 for one that isn't live.
fn part(n: u8, draws: &[i64; SLOTS], most: i64, i: u8) -> u128
    requires { i < 4 }
    ensures live { i < n → 1 ≤ result }
    ensures small { result ≤ 2 ^ 32 }
    ensures rest { n ≤ i → result ≡ 0 }
{
    if i < n {
        exp2_near(draws[i as usize] as i128 - most as i128).min(1 << 32)
    } else {
        0
    }
}
