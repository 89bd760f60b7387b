//! States of one phase, and which of them has the least energy.

ghost use Rattle.std.specs.Prelude.{ℕ, ◌≡◌, ◌≤◌, ◌<◌, ◌^◌, All, neg_ℤ, pos, ◌<ℤ◌, unsigned_abs};
ghost use Rattle.case_types.specs.Arithmetic.Bounds.{Box};
ghost use Rattle.energy_surface.specs.Scans.{scan_packing};
ghost use Rattle.split_energies.specs.Scanned.{IsInside, IsScanned, state_at, lowest_of};

use arrayvec::ArrayVec;
use case_types::MixUp;
use energy_surface::Surface;

/// The most packing fractions that are tried at a composition beside those of a scan.
pub const PACKINGS: usize = 3;

/// How many packing fractions the scan tries.
const PLACES: u64 = 64;

/// A packing fraction with the upper energy there.
#[derive(Clone, Copy, Debug, PartialEq, Eq)]
pub struct Scanned {
    /// The packing fraction in 2^-40.
    pub packing: u64,
    /// The upper energy in 2^-40 bit.
    pub up: i128,
}

/// The state of least upper energy over a box: at half the densest packing and at the multiples of a 64th of it, the first of
/// equals.
pub fn scan<S: Surface>(surface: &S, mix: &MixUp) -> Scanned
    ensures { (x : Box) → S.is_mix_up surface.now x mix.now → IsScanned (S.bounds surface.now) x result }
{
    let mut best = half(surface, mix);
    for k in 1..PLACES {
        let next = state(surface, mix, packing_at(k));
        if next.up < best.up {
            best = next;
        }
    }
    best
}

/// The first state of least upper energy over a box: of those at some packing fractions, in 2^-40, and of a last one.
pub fn lowest<S: Surface>(
    surface: &S,
    mix: &MixUp,
    packings: &ArrayVec<u64, PACKINGS>,
    last: Scanned,
) -> Scanned
    requires inside { All IsInside packings.now.items }
    requires small { unsigned_abs last.up < 2 ^ 49 }
    ensures lowest { (x : Box) → S.is_mix_up surface.now x mix.now → result ≡ lowest_of (S.bounds surface.now) x packings.now.items last }
    ensures small { (x : Box) → S.is_mix_up surface.now x mix.now → unsigned_abs result.up < 2 ^ 49 }
{
    let mut best = last;
    for k in (0..packings.len()).rev() {
        let next = state(surface, mix, packings[k]);
        if next.up <= best.up {
            best = next;
        }
    }
    best
}

/// The state at half the densest packing.
pub fn half<S: Surface>(surface: &S, mix: &MixUp) -> Scanned
    ensures at { (x : Box) → S.is_mix_up surface.now x mix.now → result ≡ state_at (S.bounds surface.now) x (2 ^ 39) }
    ensures small { (x : Box) → S.is_mix_up surface.now x mix.now → unsigned_abs result.up < 2 ^ 49 }
{
    state(surface, mix, 1 << 39)
}

/// The state at a packing fraction in 2^-40.
fn state<S: Surface>(surface: &S, mix: &MixUp, packing: u64) -> Scanned
    requires some { 1 ≤ packing }
    requires inside { packing < 2 ^ 40 }
    ensures at { (x : Box) → S.is_mix_up surface.now x mix.now → result ≡ state_at (S.bounds surface.now) x packing }
    ensures small { unsigned_abs result.up ≤ 2 ^ 106 }
    ensures at_half { (x : Box) → S.is_mix_up surface.now x mix.now → packing ≡ 2 ^ 39 → unsigned_abs result.up < 2 ^ 49 }
    ensures not_deep { (x : Box) → S.is_mix_up surface.now x mix.now → neg_ℤ (pos (2 ^ 49)) <ℤ result.up }
{
    let logs = surface.logs(packing);
    Scanned {
        packing,
        up: surface.up(mix, &logs),
    }
}

/// The packing fraction at a place of the scan, in 2^-40.
fn packing_at(k: u64) -> u64
    requires { k < 64 }
    ensures value { result ≡ scan_packing k }
    ensures some { 1 ≤ result }
    ensures inside { result < 2 ^ 40 }
{
    if k == 0 { 1 << 39 } else { k * (1 << 34) }
}
