//! Phases, and splits of the feed into phases.

ghost use Rattle.std.specs.Prelude.{◌≤◌, ◌<◌, ◌^◌, IsTrue, length};
ghost use Rattle.std.specs.List.{list_all};
ghost use Rattle.case_types.specs.Ranges.{are_parts, is_packing};

use crate::cases::SLOTS;
use arrayvec::ArrayVec;

/// A phase: the parts of the components, and the packing fraction in 2^-40.
#[derive(Clone, Copy, Debug, PartialEq, Eq)]
pub struct Phase {
    pub parts: [u128; SLOTS],
    pub packing: u64,
}

/// One part of the first component, at half the densest packing.
const ONE_PART: Phase = Phase {
    parts: [1, 0, 0, 0],
    packing: 1 << 39,
};

impl Default for Phase {
    /// One part of the first component, at half the densest packing.
    fn default() -> Phase {
        ONE_PART
    }
}

/// One to four phases, with the number of parts that stands for one mole of the feed.
#[derive(Drop)]
pub struct Split {
    pub sum: u128,
    pub phases: ArrayVec<Phase, SLOTS>,
    pub ghost positive: { 1 ≤ sum },
    pub ghost small: { sum < 2 ^ 104 },
    pub ghost some: { 1 ≤ length phases.items },
    pub ghost parted: { IsTrue (list_all (λ f. are_parts f.parts) phases.items) },
    pub ghost packed: { IsTrue (list_all (λ f. is_packing f.packing) phases.items) },
}

impl Default for Split {
    /// One part, in one phase.
    fn default() -> Split {
        let mut phases = ArrayVec::new();
        phases.push(ONE_PART);
        Split { sum: 1, phases }
    }
}
