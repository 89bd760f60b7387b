//! Boxes of compositions, and cells of the search.

ghost use Rattle.std.specs.Prelude.{◌≤◌, ◌<◌, ◌^◌, IsTrue, slice_index};
ghost use Rattle.case_types.specs.Ranges.{is_each_at_most, is_each_up_to};
ghost use Rattle.log_laws.specs.Sums.{sum_below};

use crate::cases::SLOTS;

/// The fractions of all components from `a` to `b`, in 2^-40. It holds a composition.
#[derive(Clone, Copy, Debug, PartialEq, Eq)]
pub struct BoxX {
    pub a: [u64; SLOTS],
    pub b: [u64; SLOTS],
    pub ghost ordered: { IsTrue (is_each_at_most 4 a b) },
    pub ghost inside: { IsTrue (is_each_up_to 4 b (2 ^ 40)) },
    pub ghost not_above: { sum_below 4 (slice_index a) ≤ 2 ^ 40 },
    pub ghost not_below: { 2 ^ 40 ≤ sum_below 4 (slice_index b) },
}

/// The free fractions from `lo` to `hi` in 2^-20, and the packing fractions from `ylo` to `yhi` in 2^-40.
#[derive(Clone, Copy, Debug, PartialEq, Eq)]
pub struct Cell {
    pub lo: [u32; 3],
    pub hi: [u32; 3],
    pub ylo: u64,
    pub yhi: u64,
    pub ghost ordered: { IsTrue (is_each_at_most 3 lo hi) },
    pub ghost inside: { IsTrue (is_each_up_to 3 hi (2 ^ 20)) },
    pub ghost thick: { ylo < yhi },
    pub ghost packed: { yhi ≤ 2 ^ 40 },
}

impl Default for Cell {
    /// The cell of the least packings, at the composition of the last component alone.
    fn default() -> Cell {
        Cell {
            lo: [0; 3],
            hi: [0; 3],
            ylo: 0,
            yhi: 1,
        }
    }
}
