//! The energy of a phase, at most.

ghost use Rattle.std.specs.Prelude.{◌≡◌, ◌≤◌, ◌<◌, ◌^◌, unsigned_abs, slice_index};
ghost use Rattle.log_laws.specs.Sums.{sum_below};
ghost use Rattle.case_types.specs.Arithmetic.Splits.{phase_up};

use case_types::{Case, Phase};
use density_boxes::phase_box;
use energy_surface::Surface;

/// The energy of a phase alone is at most this, in 2^-40 bit for a mole of the phase.
pub fn phase_energy<S: Surface>(surface: &S, case: &Case, phase: &Phase) -> i128
    requires components { case.now.n ≡ (S.bounds surface.now).count }
    requires some { 1 ≤ sum_below case.now.n (slice_index phase.now.parts) }
    requires small { sum_below case.now.n (slice_index phase.now.parts) < 2 ^ 106 }
    requires packed { 1 ≤ phase.now.packing }
    requires not_full { phase.now.packing < 2 ^ 40 }
    ensures value { result ≡ phase_up case.now.n (S.bounds surface.now).up phase.now }
    ensures small { unsigned_abs result ≤ 2 ^ 106 }
{
    let mix = surface.mix_up(&phase_box(case, phase));
    let logs = surface.logs(phase.packing);
    surface.up(&mix, &logs)
}
