//! The answer of a flash, with the work that led to it.

use crate::cases::ParamFault;
use crate::cells::Cell;
use crate::lists::{Columns, Letters, Memory, Pivots, Rounds};
use crate::phases::Split;
use crate::planes::Plane;

/// How a flash ended.
#[derive(Clone, Copy, Debug, PartialEq, Eq)]
pub enum Outcome {
    /// The gap is within the tolerance.
    Closed,
    /// The units of the budget are spent.
    Spent,
    /// This cell of the finest grid can't be cleared.
    Grain(Cell),
}

/// The list of work of a flash.
#[derive(Drop)]
pub struct Work {
    pub columns: Columns,
    pub pivots: Pivots,
    pub letters: Letters,
    pub rounds: Rounds,
}

/// The answer of a flash. Energies are per mole of feed, in 2^-40 bit.
#[derive(Drop)]
pub struct Answer {
    pub outcome: Outcome,
    pub split: Split,
    /// The upper energy of the split.
    pub u: i128,
    /// The last tangent plane.
    pub plane: Plane,
    /// No phase lies below the plane by more than this number does.
    pub low: i128,
    /// The upper energy, less the plane at the feed, less `low`.
    pub gap: i128,
    pub units: u32,
    pub work: Work,
}

/// Why a flash has no answer.
#[derive(Debug, Drop)]
pub enum FlashFault {
    Param(ParamFault),
    Memory(Memory),
}
