//! Whether a split is a division of the feed.

ghost use Rattle.std.specs.Prelude.{◌≡◌, ◌<◌, ◌≤◌, ◌^◌, ◌↔◌, IsTrue};
ghost use Rattle.std.specs.List.{All};
ghost use Rattle.case_types.specs.Energy.Divisions.{AddsUp, Divides, IsState, division_of, moles, parts_in, state_of};

use crate::cases::Case;
use crate::phases::{Phase, Split};

/// Whether the split is a division of the feed: each phase has a part of a live component, and the phases add up to the feed,
/// exactly and for each component.
pub fn adds_up(case: &Case, split: &Split) -> bool
    ensures { IsTrue result ↔ Divides case.now (division_of split.now) }
{
    has_live_parts(case, split) && matches_feed(case, split)
}

/// Whether each phase has a part of a live component.
fn has_live_parts(case: &Case, split: &Split) -> bool
    ensures { IsTrue result ↔ All (IsState case.now.n) (division_of split.now).phases }
{
    for phase in split.phases.iter() {
        if !has_live_part(case.n, phase) {
            return false;
        }
    }
    true
}

/// Whether the phase has a part of one of the first `n` components.
fn has_live_part(n: u8, phase: &Phase) -> bool
    requires { n ≤ 4 }
    ensures { IsTrue result ↔ (0 < moles n (state_of phase.now)) }
{
    for i in 0..n as usize {
        if phase.parts[i] > 0 {
            return true;
        }
    }
    false
}

/// Whether the phases add up to the feed.
fn matches_feed(case: &Case, split: &Split) -> bool
    ensures { IsTrue result ↔ AddsUp case.now (division_of split.now) }
{
    for i in 0..case.n as usize {
        if case.total as u128 * parts_of(split, i) != case.z[i] as u128 * split.sum {
            return false;
        }
    }
    true
}

/// How many parts of a component the phases have together.
fn parts_of(split: &Split, component: usize) -> u128
    requires { component < 4 }
    ensures value { result ≡ parts_in (division_of split.now).phases component }
    ensures small { result < 2 ^ 107 }
{
    let mut parts = 0;
    for phase in split.phases.iter() {
        parts += phase.parts[component];
    }
    parts
}
