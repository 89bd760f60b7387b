//! The potentials.

ghost use Rattle.std.specs.Prelude.{ℕ, ◌≡◌, ◌≤◌, ◌<◌, ◌^◌, ◌+◌, pos, unsigned_abs, slice_index_or, IsTrue};
ghost use Rattle.case_types.specs.Ranges.{is_each_below};

use crate::compositions::{fractions, log_fraction_at, log_fractions};
use crate::kept::kept;
use crate::means::{covolume, mean_attraction, mean_covolume, pull_at, pulls};
use crate::terms::{
    LOG_E, attraction_log, attraction_ratio, covolume_ratio, crowded, crowding, growth, in_bits,
    log_of, product, pulled, thinned,
};
use case_types::{Phase, SLOTS};
use pr_params::Params;

/// 1 in 2^-40.
const ONE: u64 = 1 << 40;

/// What all components of a phase share.
#[derive(Drop)]
struct Shared {
    /// The packing fraction, strictly between 0 and 1.
    y: u64,
    /// The fractions.
    x: [u128; SLOTS],
    /// Their logarithms.
    logs: [i128; SLOTS],
    /// The mean co-volume.
    b: u128,
    /// The means of the attractions to each component.
    pulls: [u128; SLOTS],
    pub ghost some: { 1 ≤ y },
    pub ghost inside: { y < 2 ^ 40 },
    pub ghost low: { 2 ^ 49 ≤ b },
    pub ghost high: { b ≤ 2 ^ 61 },
}

/// Near chemical potentials over RT ln 2 of the components of the phase, in 2^-40 bit, each of size at most 2^20 bit,
/// and 0 for components that aren't live.
///
/// They are guesses for candidate planes: how near they are is not promised. With the fractions `x` and the packing
/// fraction `y`, the means `B` of the co-volumes `b` and `A` of the attractions `a` over all pairs, and `S_i` the mean of
/// `a_ij` over j, the potential of the component i is
///
/// ```text
/// log2 x_i + log2 e + log2 (y/B) - log2 (1-y) + log2 e (b_i/B) y/(1-y)
///     - (2 S_i/B - A b_i/B^2)/(2 root 2) L - log2 e (A/B) (b_i/B) y/(1+2y-y^2),
/// L = log2 ((1+(1+root 2)y)/(1+(1-root 2)y)).
/// ```
///
/// It is the derivative, by the moles of i at constant volume and temperature, of the number of moles times the reduced
/// energy of one mole by the equation of Peng and Robinson, "A New Two-Constant Equation of State", Industrial and
/// Engineering Chemistry Fundamentals 15 (1976), pages 59 to 64. The term of pressure times volume doesn't depend on the
/// moles there.
///
/// A fraction of 0 counts as 2^-20 in its logarithm. A packing fraction that isn't strictly between 0 and 1 counts as the
/// nearest on the grid that is, and more than 2^104 parts count as 2^104.
pub fn mu_near(params: &Params, phase: &Phase) -> [i128; SLOTS]
    ensures small { IsTrue (is_each_below 4 result (2 ^ 60 + 1)) }
    ensures vacant { (i : ℕ) → params.now.case.n ≤ i → i < 4 → slice_index_or result i (pos 0) ≡ pos 0 }
{
    let shared = shared_of(params, phase);
    [
        potential(params, &shared, 0),
        potential(params, &shared, 1),
        potential(params, &shared, 2),
        potential(params, &shared, 3),
    ]
}

/// What the components of the phase share.
fn shared_of(params: &Params, phase: &Phase) -> Shared {
    let x = fractions(params.case.n, phase);
    let b = mean_covolume(params, &x);
    let pulls = pulls(params, &x);
    Shared {
        y: phase.packing.clamp(1, ONE - 1),
        x,
        logs: log_fractions(params.case.n, phase),
        b,
        pulls,
    }
}

/// The potential of the component `i`, kept to the range, and 0 for one that isn't live.
fn potential(params: &Params, shared: &Shared, i: u8) -> i128
    requires { i < 4 }
    ensures small { unsigned_abs result ≤ 2 ^ 60 }
    ensures vacant { params.now.case.n ≤ i → result ≡ pos 0 }
{
    if i < params.case.n {
        kept(ideal(params, shared, i) + excess(params, shared, i))
    } else {
        0
    }
}

/// The terms of the fraction and of the volume.
fn ideal(params: &Params, shared: &Shared, i: u8) -> i128
    requires { i < 4 }
    ensures { unsigned_abs result ≤ 2 ^ 63 }
{
    let packing = log_of(shared.y as u128, 40);
    let volume = log_of(shared.b, 56 + params.raised_by());
    let rest = log_of((ONE - shared.y) as u128, 40);
    lowered(
        gains(log_fraction_at(&shared.logs, i), packing),
        volume,
        rest,
    )
}

/// The logarithms that are added, with that of e.
fn gains(mixing: i128, packing: i128) -> i128
    requires mixing { unsigned_abs mixing ≤ 2 ^ 60 }
    requires packing { unsigned_abs packing ≤ 2 ^ 60 }
    ensures { unsigned_abs result ≤ 2 ^ 62 }
{
    mixing + packing + LOG_E as i128
}

/// The logarithms that are added less those that are taken off.
fn lowered(gain: i128, volume: i128, rest: i128) -> i128
    requires gain { unsigned_abs gain ≤ 2 ^ 62 }
    requires volume { unsigned_abs volume ≤ 2 ^ 60 }
    requires rest { unsigned_abs rest ≤ 2 ^ 60 }
    ensures { unsigned_abs result ≤ 2 ^ 63 }
{
    gain - volume - rest
}

/// The terms of the co-volume and of the attraction.
fn excess(params: &Params, shared: &Shared, i: u8) -> i128
    requires { i < 4 }
    ensures { unsigned_abs result ≤ 2 ^ 64 }
{
    let y = shared.y as u128;
    let ratio = covolume_ratio(covolume(params, i), shared.b);
    let mean = attraction_ratio(mean_attraction(&shared.x, &shared.pulls), shared.b);
    let whole = product(mean, ratio);
    let push = in_bits(crowded(ratio, crowding(y)));
    let fall = in_bits(product(whole, thinned(y)));
    let pull = attraction_ratio(pull_at(&shared.pulls, i), shared.b);
    push - fall - pulled(growth(pull, whole), attraction_log(shared.y))
}
