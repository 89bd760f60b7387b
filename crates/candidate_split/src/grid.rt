//! Compositions on the grid of 2^-20.

ghost use Rattle.std.specs.Prelude.{ℕ, ◌≡◌, ◌≤◌, ◌<◌, ◌^◌, ◌*◌, ◌/◌, slice_index};
ghost use Rattle.log_laws.specs.Sums.{sum_below};
ghost use Rattle.candidate_split.specs.Grid.{completed, first_greatest, floor_fraction, floor_fractions, grid_fractions};

use case_types::SLOTS;

/// 1 in 2^-20.
const WHOLE: u32 = 1 << 20;

/// The fractions that the parts of the first `n` components have of their sum, on the grid of 2^-20.
///
/// Each is rounded down. The units that are missing to 1, fewer than `n`, go to the first of the greatest. Components that
/// aren't live have the fraction 0.
pub fn to_grid(n: u8, parts: &[u128; SLOTS]) -> [u32; SLOTS]
    requires one { 1 ≤ n }
    requires four { n ≤ 4 }
    requires some { 1 ≤ sum_below n (slice_index parts.now) }
    requires small { sum_below n (slice_index parts.now) < 2 ^ 106 }
    ensures value { result ≡ grid_fractions n parts.now }
    ensures whole { sum_below n (slice_index result) ≡ 2 ^ 20 }
    ensures rest { (i : ℕ) → n ≤ i → slice_index result i ≡ 0 }
{
    complete(n, rounded_down(n, parts))
}

/// The fractions of `n` components, with what is missing to 1 given to the first of the greatest.
fn complete(n: u8, fractions: [u32; SLOTS]) -> [u32; SLOTS]
    requires some { 1 ≤ n }
    requires four { n ≤ 4 }
    requires room { sum_below n (slice_index fractions) ≤ 2 ^ 20 }
    ensures { result ≡ completed n fractions }
{
    let missing = WHOLE - sum_of(n, &fractions);
    let most = greatest(n, &fractions);
    let mut whole = fractions;
    whole[most] += missing;
    whole
}

/// The sum of the first `n` fractions.
fn sum_of(n: u8, fractions: &[u32; SLOTS]) -> u32
    requires four { n ≤ 4 }
    requires small { sum_below n (slice_index fractions.now) ≤ 2 ^ 20 }
    ensures { result ≡ sum_below n (slice_index fractions.now) }
{
    let mut sum = 0;
    for i in 0..n as usize {
        sum += fractions[i];
    }
    sum
}

/// The place of the first of the greatest among the first `n` fractions.
fn greatest(n: u8, fractions: &[u32; SLOTS]) -> usize
    requires four { n ≤ 4 }
    ensures value { result ≡ first_greatest n fractions.now }
    ensures inside { result < 4 }
{
    let mut most = 0;
    for i in 0..n as usize {
        if fractions[most] < fractions[i] {
            most = i;
        }
    }
    most
}

/// The fractions of the first `n` components, each rounded down, and 0 for the others.
fn rounded_down(n: u8, parts: &[u128; SLOTS]) -> [u32; SLOTS]
    requires four { n ≤ 4 }
    requires some { 1 ≤ sum_below n (slice_index parts.now) }
    requires small { sum_below n (slice_index parts.now) < 2 ^ 106 }
    ensures { result ≡ floor_fractions n parts.now }
{
    let sum = moles(n, parts);
    [
        fraction(n, parts, sum, 0),
        fraction(n, parts, sum, 1),
        fraction(n, parts, sum, 2),
        fraction(n, parts, sum, 3),
    ]
}

/// How many parts the first `n` components have together.
fn moles(n: u8, parts: &[u128; SLOTS]) -> u128
    requires four { n ≤ 4 }
    requires small { sum_below n (slice_index parts.now) < 2 ^ 106 }
    ensures { result ≡ sum_below n (slice_index parts.now) }
{
    let mut sum = 0;
    for i in 0..n as usize {
        sum += parts[i];
    }
    sum
}

/// The fraction of the component `i` of `n`, rounded down, and 0 for one that isn't live.
fn fraction(n: u8, parts: &[u128; SLOTS], sum: u128, i: u8) -> u32
    requires four { n ≤ 4 }
    requires sum { sum ≡ sum_below n (slice_index parts.now) }
    requires some { 1 ≤ sum }
    requires small { sum < 2 ^ 106 }
    ensures { result ≡ floor_fraction n parts.now i }
{
    if i < n {
        share(parts[i as usize], sum)
    } else {
        0
    }
}

/// A part over the sum, in 2^-20 and rounded down.
fn share(part: u128, sum: u128) -> u32
    requires inside { part ≤ sum }
    requires some { 1 ≤ sum }
    requires small { sum < 2 ^ 106 }
    ensures { result ≡ part * 2 ^ 20 / sum }
{
    ((part << 20) / sum) as u32
}
