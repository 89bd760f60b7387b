//! The whole feed in one phase.

ghost use Rattle.std.specs.Prelude.{◌≡◌, ◌≤◌, ◌<◌, ◌^◌};
ghost use Rattle.split_energies.specs.Feeds.{feed_part, feed_phase, IsOnePhase};

use arrayvec::ArrayVec;
use case_types::{Case, Phase, SLOTS, Split};

/// The whole feed in one phase, at a packing fraction in 2^-40.
pub fn one_phase(case: &Case, packing: u64) -> Split
    requires some { 1 ≤ packing }
    requires inside { packing < 2 ^ 40 }
    ensures { IsOnePhase case.now packing result }
{
    let mut phases: ArrayVec<Phase, SLOTS> = ArrayVec::new();
    phases.push(feed_as_phase(case, packing));
    Split {
        sum: case.total as u128,
        phases,
    }
}

/// The feed as a phase, at a packing fraction in 2^-40.
pub fn feed_as_phase(case: &Case, packing: u64) -> Phase
    ensures { result ≡ feed_phase case.now packing }
{
    Phase {
        parts: [part(case, 0), part(case, 1), part(case, 2), part(case, 3)],
        packing,
    }
}

/// The parts of a component in the feed, and none of one that isn't live.
fn part(case: &Case, i: usize) -> u128
    requires { i < 4 }
    ensures { result ≡ feed_part case.now i }
{
    if i < case.n as usize {
        case.z[i] as u128
    } else {
        0
    }
}
