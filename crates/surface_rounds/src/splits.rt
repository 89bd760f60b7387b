//! Splits of the feed with their energies.

ghost use Rattle.std.specs.Prelude.{◌≤◌, ◌^◌, unsigned_abs};

use case_types::Split;

/// A split of the feed that is there before the first round.
#[derive(Drop)]
pub struct Rival {
    pub split: Split,
    /// Its upper energy, in 2^-40 bit for a mole of feed.
    pub u: i128,
    pub ghost small: { unsigned_abs u ≤ 2 ^ 109 },
}

impl Default for Rival {
    /// One part, without an energy.
    fn default() -> Rival {
        Rival {
            split: Split::default(),
            u: 0,
        }
    }
}
