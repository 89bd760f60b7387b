//! Amounts of the trial phases.

ghost use Rattle.std.specs.Prelude.{◌≡◌, ◌≤◌, ◌<◌, ◌^◌, ◌+◌, ◌*◌, IsTrue, length, slice_index, nat_le};
ghost use Rattle.log_laws.specs.Sums.{all_below};

use crate::trials::{LEAST, MOST, Trial};
use case_types::{Case, SLOTS};

/// The most parts of a component in a phase, in 2^-30.
const MOST_PARTS: u64 = 1 << 33;

/// The greatest factor by which an amount grows in a turn, in 2^-30.
const MOST_GROWTH: u64 = 1 << 33;

/// The fractions of the feed, in 2^-30 and rounded down, and 0 for components that aren't live.
pub fn feed_shares(case: &Case) -> [u32; SLOTS] {
    [
        feed_share(case, 0),
        feed_share(case, 1),
        feed_share(case, 2),
        feed_share(case, 3),
    ]
}

/// The fraction of the component `i` in the feed, in 2^-30, and 0 for one that isn't live.
fn feed_share(case: &Case, i: u8) -> u32
    requires { i < 4 }
{
    if i < case.n {
        (case.z[i as usize] as u64 * MOST / case.total as u64) as u32
    } else {
        0
    }
}

/// How strongly all phases together draw the components, in 2^-32, and one unit more.
#[derive(Clone, Copy)]
struct Draws {
    of: [u64; SLOTS],
    ghost positive: { IsTrue (all_below 4 (λ i. nat_le 1 (slice_index of i))) },
}

/// Shares the feed out among the phases, each component as it is drawn: one turn of successive substitution for the amounts at
/// fixed fugacity coefficients.
///
/// With the fractions `s_i` of the feed, in 2^-30, the amounts `a_j` and the weights `e_ji`, one mole of the phase j has
/// `s_i e_ji / (sum over k of a_k e_ki)` of the component i, and its amount grows by the sum of these. The packing fractions
/// stay as they are.
pub fn share_out(n: u8, feed: &[u32; SLOTS], trials: &mut [Trial])
    requires some { 1 ≤ n }
    requires few { length trials.old ≤ 7 }
{
    let draws = Draws {
        of: [
            drawn(trials, 0),
            drawn(trials, 1),
            drawn(trials, 2),
            drawn(trials, 3),
        ],
    };
    for trial in trials {
        supply(n, feed, &draws, trial);
    }
}

/// How strongly all phases together draw the component `i`, in 2^-32, and one unit more.
fn drawn(trials: &[Trial], i: usize) -> u64
    requires inside { i < 4 }
    requires few { length trials.now ≤ 7 }
    ensures { 1 ≤ result }
{
    let mut sum = 1;
    for trial in trials {
        sum += draw(trial, i);
    }
    sum
}

/// How strongly a phase draws the component `i` with its amount, in 2^-32.
fn draw(trial: &Trial, i: usize) -> u64
    requires { i < 4 }
    ensures { result ≤ 2 ^ 32 }
{
    (trial.amount * trial.weights.at(i)) >> 30
}

/// Gives the phase its share of the feed, and the amount that this comes to.
fn supply(n: u8, feed: &[u32; SLOTS], draws: &Draws, trial: &mut Trial)
    requires { 1 ≤ n }
    ensures { trial.new.phase.packing ≡ trial.old.phase.packing }
{
    let first = part(n, feed, draws, trial, 0);
    let second = part(n, feed, draws, trial, 1);
    let third = part(n, feed, draws, trial, 2);
    let fourth = part(n, feed, draws, trial, 3);
    let growth = (first + second + third + fourth).min(MOST_GROWTH);
    trial.amount = ((trial.amount * growth) >> 30).clamp(LEAST, MOST);
    trial.phase.parts = [first as u128, second as u128, third as u128, fourth as u128];
}

/// The part of the component `i` of `n` for one mole of the phase, in 2^-30, and 0 for one that isn't live.
fn part(n: u8, feed: &[u32; SLOTS], draws: &Draws, trial: &Trial, i: u8) -> u64
    requires { i < 4 }
    ensures live { i < n → 1 ≤ result }
    ensures few { result ≤ 2 ^ 33 }
{
    if i < n {
        let share = feed[i as usize] as u64 * trial.weights.at(i as usize) / draws.of[i as usize];
        share.clamp(1, MOST_PARTS)
    } else {
        0
    }
}
