//! Where the near flash begins.

ghost use Rattle.std.specs.Prelude.{◌≡◌, ◌≤◌, ◌<◌, ◌+◌, ◌^◌, length, slice_index};
ghost use Rattle.log_laws.specs.Sums.{sum_below};

use crate::substituting::toward;
use crate::trials::{TRIALS, Trial};
use arrayvec::ArrayVec;
use case_types::{Case, Phase, SLOTS};
use chem_potential::mu_near;
use pr_params::Params;
use split_energies::feed_as_phase;

/// The packing fraction of a gas, in 2^-40: 2^-20.
const GAS: u64 = 1 << 20;

/// The packing fraction of a dense phase, in 2^-40: a half.
const DENSE: u64 = 1 << 39;

/// How many parts the component has that a phase is mostly made of, for one part of each other.
const MOSTLY: u128 = 64;

/// The trial phases at the start: the feed; one step from it as a gas, and one as a dense phase, toward the plane that
/// touches the feed; and for each component a phase that is mostly made of it.
pub fn starts(params: &Params) -> ArrayVec<Trial, TRIALS>
    ensures { length result.items ≡ params.now.case.n + 3 }
{
    let parts = feed_parts(&params.case);
    let feed = Trial::start(params, parts);
    let plane = mu_near(params, &feed.phase);
    let mut trials: ArrayVec<Trial, TRIALS> = ArrayVec::new();
    trials.push(feed);
    trials.push(step(params, &plane, parts, GAS));
    trials.push(step(params, &plane, parts, DENSE));
    for i in 0..params.case.n {
        trials.push(Trial::start(params, near_component(params.case.n, i)));
    }
    trials
}

/// The phase one step of successive substitution from the parts at a packing fraction toward a plane.
fn step(params: &Params, plane: &[i128; SLOTS], parts: [u128; SLOTS], packing: u64) -> Trial {
    Trial::start(params, toward(params, plane, &Phase { parts, packing }))
}

/// The parts of the feed.
fn feed_parts(case: &Case) -> [u128; SLOTS]
    ensures some { 1 ≤ slice_index result 0 }
    ensures few { sum_below 4 (slice_index result) ≤ 2 ^ 35 }
{
    feed_as_phase(case, DENSE).parts
}

/// The parts of a phase that is mostly made of the component `i` of `n`.
fn near_component(n: u8, i: u8) -> [u128; SLOTS]
    requires { 1 ≤ n }
    ensures some { 1 ≤ slice_index result 0 }
    ensures few { sum_below 4 (slice_index result) ≤ 2 ^ 35 }
{
    [
        part_near(n, i, 0),
        part_near(n, i, 1),
        part_near(n, i, 2),
        part_near(n, i, 3),
    ]
}

/// The part that the component `j` of `n` has of a phase that is mostly made of the component `i`.
fn part_near(n: u8, i: u8, j: u8) -> u128
    ensures live { j < n → 1 ≤ result }
    ensures few { result ≤ 64 }
{
    if j >= n {
        0
    } else if j == i {
        MOSTLY
    } else {
        1
    }
}
