//! Points near the phases that a near flash finds.

ghost use Rattle.std.specs.Prelude.{◌≤◌, ◌^◌};

use case_types::SLOTS;

/// A point near a phase.
#[derive(Clone, Copy)]
pub struct Near {
    /// The composition, in 2^-20.
    pub comp: [u32; SLOTS],
    /// The packing fraction, in 2^-40.
    pub packing: u64,
    /// How much of the feed the phase has, in 2^-30.
    pub amount: u64,
    pub ghost some: { 2 ^ 10 ≤ amount },
    pub ghost not_above: { amount ≤ 2 ^ 30 },
}

impl Default for Near {
    /// The first component alone at the least packing fraction, with the least amount.
    fn default() -> Near {
        Near {
            comp: [1 << 20, 0, 0, 0],
            packing: 1,
            amount: 1 << 10,
        }
    }
}
