//! Splits of the feed into a vapour and a liquid.

ghost use Rattle.std.specs.Prelude.{◌≡◌, ◌≤◌, ◌<◌, ◌^◌, ◌*◌, IfSome, IfNone, IsTrue, IsFalse, slice_index};
ghost use Rattle.case_types.specs.Energy.Divisions.{Divides, division_of};
ghost use Rattle.split_energies.specs.Feeds.{feed_part};
ghost use Rattle.candidate_split.specs.TwoPhases.{IsComposition, IsTwoPhase, fits_feed, liquid_part, liquid_phase, vapour_and_liquid, vapour_part, vapour_phase};

use arrayvec::ArrayVec;
use case_types::{Case, Phase, SLOTS, Split};

/// 1 in 2^-20.
pub const WHOLE: u32 = 1 << 20;

/// The split of the feed into a vapour, which has the share `v` of it at the composition `y`, both in 2^-20, and a liquid, which
/// has the rest, with their packing fractions in 2^-40. A phase without a share is left out.
///
/// It is a division of the feed, exactly. There is none where the vapour would have more of a component than the feed has.
pub fn two_phase(case: &Case, v: u32, y: &[u32; SLOTS], vapour: u64, liquid: u64) -> Option<Split>
    requires share { v ≤ 2 ^ 20 }
    requires composition { IsComposition case.now.n y.now }
    requires vapour_some { 1 ≤ vapour }
    requires vapour_inside { vapour < 2 ^ 40 }
    requires liquid_some { 1 ≤ liquid }
    requires liquid_inside { liquid < 2 ^ 40 }
    ensures split { IfSome result (IsTwoPhase case.now v y.now vapour liquid) }
    ensures divides { IfSome result (λ s. Divides case.now (division_of s)) }
    ensures some { IfSome result (λ s. IsTrue (fits_feed case.now v y.now)) }
    ensures none { IfNone result (IsFalse (fits_feed case.now v y.now)) }
{
    if !fits(case, v, y) {
        return None;
    }
    Some(shared(case, v, y, vapour, liquid))
}

/// The split into a vapour of the share `v` at the composition `y` and a liquid, where the feed has enough of each component.
pub fn shared(case: &Case, v: u32, y: &[u32; SLOTS], vapour: u64, liquid: u64) -> Split
    requires share { v ≤ 2 ^ 20 }
    requires composition { IsComposition case.now.n y.now }
    requires fits { IsTrue (fits_feed case.now v y.now) }
    requires vapour_some { 1 ≤ vapour }
    requires vapour_inside { vapour < 2 ^ 40 }
    requires liquid_some { 1 ≤ liquid }
    requires liquid_inside { liquid < 2 ^ 40 }
    ensures split { IsTwoPhase case.now v y.now vapour liquid result }
    ensures divides { Divides case.now (division_of result) }
{
    Split {
        sum: (case.total as u128) << 40,
        phases: phases_of(case, v, y, vapour, liquid),
    }
}

/// The phases that have a share.
fn phases_of(
    case: &Case,
    v: u32,
    y: &[u32; SLOTS],
    vapour: u64,
    liquid: u64,
) -> ArrayVec<Phase, SLOTS>
    requires share { v ≤ 2 ^ 20 }
    requires composition { IsComposition case.now.n y.now }
    requires fits { IsTrue (fits_feed case.now v y.now) }
    ensures { result.items ≡ vapour_and_liquid case.now v y.now vapour liquid }
{
    let mut phases: ArrayVec<Phase, SLOTS> = ArrayVec::new();
    if v > 0 {
        phases.push(vapour_of(case, v, y, vapour));
    }
    if v < WHOLE {
        phases.push(liquid_of(case, v, y, liquid));
    }
    phases
}

/// Whether the feed has as much of each component as the vapour asks for.
fn fits(case: &Case, v: u32, y: &[u32; SLOTS]) -> bool
    requires share { v ≤ 2 ^ 20 }
    requires composition { IsComposition case.now.n y.now }
    ensures { result ≡ fits_feed case.now v y.now }
{
    for i in 0..case.n {
        if part_of_vapour(case, v, y, i) > part_of_feed(case, i) {
            return false;
        }
    }
    true
}

/// The vapour.
fn vapour_of(case: &Case, v: u32, y: &[u32; SLOTS], packing: u64) -> Phase
    requires share { v ≤ 2 ^ 20 }
    requires composition { IsComposition case.now.n y.now }
    ensures { result ≡ vapour_phase case.now v y.now packing }
{
    Phase {
        parts: [
            part_of_vapour(case, v, y, 0) as u128,
            part_of_vapour(case, v, y, 1) as u128,
            part_of_vapour(case, v, y, 2) as u128,
            part_of_vapour(case, v, y, 3) as u128,
        ],
        packing,
    }
}

/// The liquid.
pub fn liquid_of(case: &Case, v: u32, y: &[u32; SLOTS], packing: u64) -> Phase
    requires share { v ≤ 2 ^ 20 }
    requires composition { IsComposition case.now.n y.now }
    requires fits { IsTrue (fits_feed case.now v y.now) }
    ensures { result ≡ liquid_phase case.now v y.now packing }
{
    Phase {
        parts: [
            part_of_liquid(case, v, y, 0) as u128,
            part_of_liquid(case, v, y, 1) as u128,
            part_of_liquid(case, v, y, 2) as u128,
            part_of_liquid(case, v, y, 3) as u128,
        ],
        packing,
    }
}

/// The parts of the component `i` in the liquid, of `total*2^40` in the feed.
fn part_of_liquid(case: &Case, v: u32, y: &[u32; SLOTS], i: u8) -> u64
    requires inside { i < 4 }
    requires share { v ≤ 2 ^ 20 }
    requires composition { IsComposition case.now.n y.now }
    requires fits { IsTrue (fits_feed case.now v y.now) }
    ensures { result ≡ liquid_part case.now v y.now i }
{
    part_of_feed(case, i).saturating_sub(part_of_vapour(case, v, y, i))
}

/// The parts of the component `i` in the vapour, of `total*2^40` in the feed.
fn part_of_vapour(case: &Case, v: u32, y: &[u32; SLOTS], i: u8) -> u64
    requires inside { i < 4 }
    requires share { v ≤ 2 ^ 20 }
    requires composition { IsComposition case.now.n y.now }
    ensures value { result ≡ vapour_part case.now v y.now i }
    ensures small { result ≤ 2 ^ 60 }
{
    product(v, y[i as usize], case.total)
}

/// The product of a share, a fraction and the total.
fn product(v: u32, y: u32, total: u32) -> u64
    requires share { v ≤ 2 ^ 20 }
    requires fraction { y ≤ 2 ^ 20 }
    requires total { total ≤ 2 ^ 20 }
    ensures value { result ≡ v * y * total }
    ensures small { result ≤ 2 ^ 60 }
{
    v as u64 * y as u64 * total as u64
}

/// The parts of the component `i` in the feed, `total*2^40` in all, and none of one that isn't live.
pub fn part_of_feed(case: &Case, i: u8) -> u64
    requires { i < 4 }
    ensures value { result ≡ feed_part case.now i * 2 ^ 40 }
    ensures small { result ≤ 2 ^ 60 }
{
    (feed_of(case, i) as u64) << 40
}

/// The component `i` of the feed, and none of one that isn't live.
fn feed_of(case: &Case, i: u8) -> u32
    requires { i < 4 }
    ensures value { result ≡ feed_part case.now i }
    ensures small { result ≤ 2 ^ 20 }
{
    if i < case.n { case.z[i as usize] } else { 0 }
}
