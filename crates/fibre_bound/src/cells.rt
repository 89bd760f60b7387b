//! Ranges of packing fractions.

ghost use Rattle.std.specs.Prelude.{◌≤◌, ◌^◌, unsigned_abs};

use case_types::PackingLogs;

/// The packing fractions from one to another, with the logarithms at both, and a low: no energy of the feed in it is below this.
#[derive(Clone, Copy)]
pub struct Cell {
    pub from: PackingLogs,
    pub to: PackingLogs,
    /// In 2^-40 bit.
    pub low: i128,
    pub ghost low_small: { unsigned_abs low ≤ 2 ^ 106 },
}

impl Default for Cell {
    /// The packing fraction 0 alone.
    fn default() -> Cell {
        Cell {
            from: PackingLogs::default(),
            to: PackingLogs::default(),
            low: 0,
        }
    }
}
