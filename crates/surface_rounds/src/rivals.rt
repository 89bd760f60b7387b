//! The splits that are there before the first round, with their energies.

ghost use Rattle.std.specs.Prelude.{ℕ, ◌≡◌, ◌≤◌, ◌<◌, ◌^◌, ◌≤ℤ◌, All, unsigned_abs};
ghost use Rattle.case_types.specs.Arithmetic.Bounds.{box_of, box_of_parts};
ghost use Rattle.energy_surface.specs.Scans.{scan_packing, one_phase_up};
ghost use Rattle.surface_rounds.specs.Guessing.{IsGuess};
ghost use Rattle.surface_rounds.specs.Rivals.{IsRival, AreRivals, splits_behind};

use crate::guides::{Guide, SPLITS};
use crate::splits::Rival;
use arrayvec::ArrayVec;
use case_types::{BoxX, Case, Split};
use density_boxes::phase_box;
use energy_surface::Surface;
use split_energies::{feed_as_phase, lowest, one_phase, scan, split_energy};

/// The most rivals: the feed in one phase, and the splits that are guessed.
pub const RIVALS: usize = SPLITS + 1;

/// The feed in one phase, at the packing fraction of least upper energy among those of the guide and those of the scan; then the
/// splits that are guessed, in their order.
pub fn rivals<S: Surface, G: Guide>(
    surface: &S,
    guide: &G,
    case: &Case,
    guessed: ArrayVec<Split, SPLITS>,
) -> ArrayVec<Rival, RIVALS>
    requires components { case.now.n ≡ (S.bounds surface.now).count }
    requires guessed { All (IsGuess (S.bounds surface.now) case.now) guessed.items }
    ensures rivals { AreRivals (S.bounds surface.now) case.now result.items }
    ensures guessed { splits_behind result.items ≡ guessed.items }
{
    let mut guessed = guessed;
    let mut list: ArrayVec<Rival, RIVALS> = ArrayVec::new();
    list.push(alone(surface, guide, case));
    for _ in 0..guessed.len() {
        list.push(weighed(surface, case, guessed.remove(0)));
    }
    list
}

/// The feed in one phase, where its upper energy is least.
fn alone<S: Surface, G: Guide>(surface: &S, guide: &G, case: &Case) -> Rival
    requires components { case.now.n ≡ (S.bounds surface.now).count }
    ensures rival { IsRival (S.bounds surface.now) case.now result }
    ensures scanned { (k : ℕ) → k < 64 → result.u ≤ℤ one_phase_up (S.bounds surface.now) case.now (scan_packing k) }
{
    let x = feed_box(case);
    let mix = surface.mix_up(&x);
    let scanned = scan(surface, &mix);
    let found = lowest(surface, &mix, &guide.packings(&x), scanned);
    weighed(surface, case, one_phase(case, found.packing))
}

/// The split with its upper energy.
fn weighed<S: Surface>(surface: &S, case: &Case, split: Split) -> Rival
    requires components { case.now.n ≡ (S.bounds surface.now).count }
    requires guess { IsGuess (S.bounds surface.now) case.now split }
    ensures rival { IsRival (S.bounds surface.now) case.now result }
    ensures split { result.split ≡ split }
{
    let u = split_energy(surface, case, &split);
    Rival { split, u }
}

/// The smallest box that holds the composition of the feed.
fn feed_box(case: &Case) -> BoxX
    ensures { box_of result ≡ box_of_parts case.now.n case.now.z }
{
    phase_box(case, &feed_as_phase(case, 1 << 39))
}
