//! The energy of a split, at most.

ghost use Rattle.std.specs.Prelude.{◌≡◌, ◌≤◌, ◌<◌, ◌^◌, unsigned_abs, slice_index};
ghost use Rattle.log_laws.specs.Sums.{sum_below};
ghost use Rattle.case_types.specs.Arithmetic.Splits.{phase_up, share_of_energy, split_up};
ghost use Rattle.case_types.specs.Energy.Divisions.{Divides, division_of};

use crate::phases::phase_energy;
use crate::shares::energy_share;
use case_types::{Case, Phase, Split};
use density_boxes::moles;
use energy_surface::Surface;

/// The energy of the split is at most this, in 2^-40 bit for a mole of feed.
pub fn split_energy<S: Surface>(surface: &S, case: &Case, split: &Split) -> i128
    requires components { case.now.n ≡ (S.bounds surface.now).count }
    requires divides { Divides case.now (division_of split.now) }
    ensures value { result ≡ split_up case.now.n (S.bounds surface.now).up split.now }
    ensures small { unsigned_abs result ≤ 2 ^ 109 }
{
    let mut energy = 0;
    for phase in split.phases.iter() {
        energy += weighed_energy(surface, case, split.sum, phase);
    }
    energy
}

/// The energy of a phase by its share of the sum, at most, in 2^-40 bit.
fn weighed_energy<S: Surface>(surface: &S, case: &Case, sum: u128, phase: &Phase) -> i128
    requires components { case.now.n ≡ (S.bounds surface.now).count }
    requires some { 1 ≤ sum_below case.now.n (slice_index phase.now.parts) }
    requires inside { sum_below case.now.n (slice_index phase.now.parts) ≤ sum }
    requires sum { sum < 2 ^ 104 }
    requires packed { 1 ≤ phase.now.packing }
    requires not_full { phase.now.packing < 2 ^ 40 }
    ensures value { result ≡ share_of_energy (sum_below case.now.n (slice_index phase.now.parts)) sum
        (phase_up case.now.n (S.bounds surface.now).up phase.now) }
    ensures small { unsigned_abs result ≤ 2 ^ 107 }
{
    let up = phase_energy(surface, case, phase);
    energy_share(moles(case.n, phase), sum, up)
}
