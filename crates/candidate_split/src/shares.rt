//! How much of the feed a phase can have.

ghost use Rattle.std.specs.Prelude.{ℕ, ◌≡◌, ◌≤◌, ◌<◌, ◌^◌, ◌*◌, IsTrue, slice_index};
ghost use Rattle.split_energies.specs.Feeds.{feed_part};
ghost use Rattle.candidate_split.specs.TwoPhases.{IsComposition, fits_feed, vapour_part};

use crate::points::Near;
use crate::two_phases::part_of_feed;
use case_types::{Case, SLOTS};
use rachford_rice::{VapourShare, rr};

/// The share of the first of two phases near these points, in 2^-20, by the ratios of their fractions. Where no share balances the
/// two phases, it is the amount that the first has.
pub fn first_share(case: &Case, first: &Near, second: &Near) -> u32
    requires first { IsComposition case.now.n first.now.comp }
    requires second { IsComposition case.now.n second.now.comp }
    ensures some { 1 ≤ result }
    ensures most { result ≤ 2 ^ 20 }
{
    let k = [
        ratio(case, first, second, 0),
        ratio(case, first, second, 1),
        ratio(case, first, second, 2),
        ratio(case, first, second, 3),
    ];
    match rr(case, &k) {
        VapourShare::Inside { lo, hi: _ } => lo.max(1),
        _ => (first.amount >> 10) as u32,
    }
}

/// The ratio of the fractions of the component `i` at two points, in 2^-32.
fn ratio(case: &Case, first: &Near, second: &Near, i: u8) -> u64
    requires inside { i < 4 }
    requires first { IsComposition case.now.n first.now.comp }
    requires second { IsComposition case.now.n second.now.comp }
    ensures some { 1 ≤ result }
    ensures most { result ≤ 2 ^ 52 }
{
    quotient(first.comp[i as usize], second.comp[i as usize])
}

/// The ratio of two fractions in 2^-20, in 2^-32. A fraction of 0 counts as 2^-20.
fn quotient(first: u32, second: u32) -> u64
    requires first { first ≤ 2 ^ 20 }
    requires second { second ≤ 2 ^ 20 }
    ensures some { 1 ≤ result }
    ensures most { result ≤ 2 ^ 52 }
{
    ((first.max(1) as u64) << 32) / second.max(1) as u64
}

/// The greatest share of the feed, in 2^-20 and at most the given one, that a phase of the composition `y` can have.
pub fn share_within(case: &Case, most: u32, y: &[u32; SLOTS]) -> u32
    requires some { 1 ≤ most }
    requires most { most ≤ 2 ^ 20 }
    requires composition { IsComposition case.now.n y.now }
    ensures some { 1 ≤ result }
    ensures most { result ≤ most }
    ensures fits { IsTrue (fits_feed case.now result y.now) }
{
    let mut share = most;
    for i in 0..case.n {
        share = share_of(case, share, y, i);
    }
    share
}

/// The greatest share, at most the given one, that takes no more of the component `i` than the feed has.
fn share_of(case: &Case, most: u32, y: &[u32; SLOTS], i: u8) -> u32
    requires live { i < case.now.n }
    requires some { 1 ≤ most }
    requires most { most ≤ 2 ^ 20 }
    requires composition { IsComposition case.now.n y.now }
    ensures some { 1 ≤ result }
    ensures most { result ≤ most }
    ensures fits { vapour_part case.now result y.now i ≤ feed_part case.now i * 2 ^ 40 }
{
    let full = y[i as usize] as u64 * case.total as u64;
    if full == 0 {
        return most;
    }
    lesser(most, part_of_feed(case, i) / full)
}

/// The lesser of two shares.
fn lesser(a: u32, b: u64) -> u32
    requires a { 1 ≤ a }
    requires b { 1 ≤ b }
    ensures some { 1 ≤ result }
    ensures first { result ≤ a }
    ensures second { result ≤ b }
{
    (a as u64).min(b) as u32
}
