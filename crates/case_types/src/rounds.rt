//! Columns of the linear program, and the rounds of a flash.

use crate::cases::SLOTS;
use crate::planes::Plane;

/// A grid point with its upper energy.
#[derive(Clone, Copy, Debug, PartialEq, Eq)]
pub struct Column {
    /// The fractions in 2^-20.
    pub comp: [u32; SLOTS],
    /// The packing fraction in 2^-40.
    pub packing: u64,
    /// The upper energy in 2^-40 bit, of size below 2^49.
    pub up: i64,
    /// The upper energy in 2^-30 bit, rounded up.
    pub cost: i64,
}

impl Default for Column {
    /// The first component alone, at half the densest packing, without energy.
    fn default() -> Column {
        Column {
            comp: [1 << 20, 0, 0, 0],
            packing: 1 << 39,
            up: 0,
            cost: 0,
        }
    }
}

/// How the search under a plane ended.
#[derive(Clone, Copy, Debug, PartialEq, Eq)]
pub enum RoundEnd {
    /// Every cell is cleared.
    Clear,
    /// A grid point lies below the plane by more than the tolerance allows.
    Refuted,
    /// No unit was left.
    Spent,
    /// A cell on the finest grid can't be cleared.
    Grain,
}

/// One plane and the search under it.
#[derive(Clone, Copy, Debug, PartialEq, Eq)]
pub struct Round {
    pub plane: Plane,
    /// The upper energy of the chosen split, per mole of feed, in 2^-40 bit.
    pub u: i128,
    /// How many columns there were when the plane was made.
    pub columns: u32,
    /// How many pivots there were when the plane was made.
    pub pivots: u32,
    /// The place of the first letter of its search.
    pub from: u32,
    /// The place past the last letter of its search.
    pub to: u32,
    pub end: RoundEnd,
}
