//! The composition of a phase.

ghost use Rattle.std.specs.Prelude.{◌≡◌, ◌≤◌, ◌<◌, ◌^◌, cond, nat_lt, slice_index};
ghost use Rattle.log_laws.specs.Sums.{sum_below};
ghost use Rattle.case_types.specs.Arithmetic.Bounds.{one, box_of_parts, share_down, share_up};
ghost use Rattle.case_types.specs.Energy.Divisions.{state_of};
ghost use Rattle.case_types.specs.Arithmetic.Holding.{IsInBox};
ghost use Rattle.case_types.specs.Arithmetic.Bounds.{box_of};

use case_types::{BoxX, Case, Phase};
use fix_interval::ratio_ends;

/// The smallest box on the grid of 2^-40 that holds the composition of the phase.
///
/// Components that aren't live have the fraction 0. Four parts below 2^104 add up to less than 2^106, as it asks.
pub fn phase_box(case: &Case, phase: &Phase) -> BoxX
    requires some { 1 ≤ sum_below case.now.n (slice_index phase.now.parts) }
    requires small { sum_below case.now.n (slice_index phase.now.parts) < 2 ^ 106 }
    ensures value { box_of result ≡ box_of_parts case.now.n phase.now.parts }
    ensures holds { IsInBox case.now.n (box_of result) (state_of phase.now) }
{
    let sum = moles(case.n, phase);
    let first = fraction_ends(case.n, phase, sum, 0);
    let second = fraction_ends(case.n, phase, sum, 1);
    let third = fraction_ends(case.n, phase, sum, 2);
    let fourth = fraction_ends(case.n, phase, sum, 3);
    BoxX {
        a: [first.0, second.0, third.0, fourth.0],
        b: [first.1, second.1, third.1, fourth.1],
    }
}

/// The fraction of the component `i` of `n`, rounded down and rounded up, in 2^-40, and 0 for one that isn't live.
pub fn fraction_ends(n: u8, phase: &Phase, sum: u128, i: u8) -> (u64, u64)
    requires four { n ≤ 4 }
    requires sum { sum ≡ sum_below n (slice_index phase.now.parts) }
    requires some { 1 ≤ sum }
    requires small { sum < 2 ^ 106 }
    ensures lo { result.0 ≡ cond (nat_lt i n) (share_down one (slice_index phase.now.parts i) sum) 0 }
    ensures hi { result.1 ≡ cond (nat_lt i n) (share_up one (slice_index phase.now.parts i) sum) 0 }
{
    if i < n {
        grid_ends(phase.parts[i as usize], sum)
    } else {
        (0, 0)
    }
}

/// The part of a sum, rounded down and rounded up, in 2^-40.
fn grid_ends(part: u128, sum: u128) -> (u64, u64)
    requires inside { part ≤ sum }
    requires some { 1 ≤ sum }
    requires small { sum < 2 ^ 106 }
    ensures lo { result.0 ≡ share_down one part sum }
    ensures hi { result.1 ≡ share_up one part sum }
{
    let (floor, ceiling) = ratio_ends(part, sum, 40);
    (floor as u64, ceiling as u64)
}

/// How many parts the first `n` components of the phase have together.
pub fn moles(n: u8, phase: &Phase) -> u128
    requires four { n ≤ 4 }
    requires small { sum_below n (slice_index phase.now.parts) < 2 ^ 106 }
    ensures { result ≡ sum_below n (slice_index phase.now.parts) }
{
    let mut sum = 0;
    for i in 0..n as usize {
        sum += phase.parts[i];
    }
    sum
}
