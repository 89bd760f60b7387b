//! The feed in one phase, as bounds of its energy want it.

ghost use Rattle.std.specs.Prelude.{◌≡◌, ◌≤◌, ◌^◌, unsigned_abs};
ghost use Rattle.case_types.specs.Arithmetic.Bounds.{box_of, box_of_parts};

use case_types::{BoxX, Case, MixLow, MixUp};
use density_boxes::phase_box;
use split_energies::feed_as_phase;

/// The composition of the feed, with its parts of bounds, and how near to the least upper energy a cell is cleared.
#[derive(Drop)]
pub struct Feed {
    /// The smallest box that holds the composition.
    pub x: BoxX,
    /// The part of lower bounds over the box.
    pub low: MixLow,
    /// The part of upper bounds over the box.
    pub up: MixUp,
    /// A cell is cleared where no energy in it lies below the least upper one by more than this, in 2^-40 bit.
    pub slack: i128,
    pub ghost slack_small: { unsigned_abs slack ≤ 2 ^ 34 },
}

/// The smallest box on the grid of 2^-40 that holds the composition of the feed.
pub fn feed_box(case: &Case) -> BoxX
    ensures { box_of result ≡ box_of_parts case.now.n case.now.z }
{
    phase_box(case, &feed_as_phase(case, 1 << 39))
}
