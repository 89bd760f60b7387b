//! Packing fractions of phases.

ghost use Rattle.std.specs.Prelude.{ℕ, ◌≡◌, ◌≤◌, ◌<◌, ◌^◌, ◌≤ℤ◌, length, slice_index, unsigned_abs};
ghost use Rattle.std.specs.List.{All, Contains};
ghost use Rattle.log_laws.specs.Sums.{sum_below};
ghost use Rattle.case_types.specs.Arithmetic.Numbers.{numbers_of};
ghost use Rattle.case_types.specs.Arithmetic.Bounds.{box_of, energy_up as upper_energy};
ghost use Rattle.case_types.specs.Arithmetic.Bounds.{box_of_parts};
ghost use Rattle.cubic_roots.specs.Pressures.{ChangesSign, IsPlace};

use arrayvec::ArrayVec;
use case_types::{BoxX, Phase, SLOTS};
use cubic_roots::packings;
use density_boxes::phase_box;
use helmholtz_density::energy_up;
use pr_params::Params;

/// Half the densest packing.
const HALF: u64 = 1 << 39;

/// The phase of these parts at the packing fraction of least upper energy among those that [`packings`] finds: there, up to
/// one unit in 2^-40, the pressure of the phase passes that of the case.
pub fn settled(params: &Params, parts: [u128; SLOTS]) -> Phase
    requires some { 1 ≤ sum_below params.now.case.n (slice_index parts) }
    requires small { sum_below params.now.case.n (slice_index parts) < 2 ^ 106 }
    ensures parts { result.parts ≡ parts }
    ensures place { IsPlace result.packing }
    ensures balances { ChangesSign (numbers_of params.now.case) (box_of_parts params.now.case.n parts) result.packing }
{
    let x = phase_box(
        &params.case,
        &Phase {
            parts,
            packing: HALF,
        },
    );
    let packing = of_least_energy(params, &x, &packings(params, &x));
    Phase { parts, packing }
}

/// The first of the packing fractions at which the upper energy over the box is least. No energy is computed for one alone.
fn of_least_energy(params: &Params, x: &BoxX, places: &ArrayVec<u64, 3>) -> u64
    requires some { 1 ≤ length places.now.items }
    requires places { All IsPlace places.now.items }
    ensures one { Contains places.now.items result }
    ensures least { All (λ y. upper_energy (numbers_of params.now.case) (box_of x.now) result ≤ℤ upper_energy (numbers_of params.now.case) (box_of x.now) y) places.now.items }
{
    if places.len() == 1 {
        return places[0];
    }
    let mut best = 0;
    let mut least = energy_at(params, x, places, best);
    for i in 1..places.len() {
        let energy = energy_at(params, x, places, i);
        if energy < least {
            best = i;
            least = energy;
        }
    }
    places[best]
}

/// The upper energy over the box at one of the packing fractions, in 2^-40 bit.
fn energy_at(params: &Params, x: &BoxX, places: &ArrayVec<u64, 3>, i: usize) -> i128
    requires there { i < length places.now.items }
    requires places { All IsPlace places.now.items }
    ensures value { result ≡ upper_energy (numbers_of params.now.case) (box_of x.now) (slice_index places.now.items i) }
    ensures small { unsigned_abs result ≤ 2 ^ 106 }
{
    energy_up(params, x, places[i])
}
