//! What is kept of a cell, so that its halves don't make it again: parts of the bounds of its energy.
//!
//! A bound of the energy is made of a part that depends on the box of compositions alone and one that depends on packing
//! fractions alone. What the numbers stand for is said by each energy surface; the sizes are those that every surface keeps.

ghost use Rattle.std.specs.Prelude.{◌≤◌, ◌^◌, unsigned_abs};

use log_laws::{Iv, Slope};

/// What a lower bound of the energy has of its box of compositions.
#[derive(Clone, Copy)]
pub struct MixLow {
    /// The sum of the mixing terms, at least, in 2^-40 bit.
    pub mixing: i128,
    /// The mean co-volume, at least, in the scale of the surface.
    pub covolume: u128,
    /// The logarithm of the mean co-volume, at most, in 2^-40.
    pub log_covolume: i128,
    /// The mean attraction over the mean co-volume, at most, in 2^-40.
    pub ratio: i128,
    /// The packing fraction in 2^-40 up to which the volume term falls.
    pub flat: u64,
    /// The packing fraction in 2^-40 from which on the volume term rises. It isn't 0.
    pub steep: u64,
    /// The volume term at the packing fraction where it is flat, at least, in 2^-40.
    pub volume_flat: i128,
    pub ghost mixing_small: { unsigned_abs mixing ≤ 2 ^ 50 },
    pub ghost covolume_low: { 2 ^ 49 ≤ covolume },
    pub ghost covolume_high: { covolume ≤ 2 ^ 61 },
    pub ghost log_small: { unsigned_abs log_covolume ≤ 2 ^ 47 },
    pub ghost ratio_small: { unsigned_abs ratio ≤ 2 ^ 47 },
    pub ghost steep_some: { 1 ≤ steep },
    pub ghost volume_small: { unsigned_abs volume_flat ≤ 2 ^ 48 },
}

/// What an upper bound of the energy has of its box of compositions.
#[derive(Clone, Copy)]
pub struct MixUp {
    /// The sum of the mixing terms, at most, in 2^-40 bit.
    pub mixing: i128,
    /// The mean co-volume, at most, in the scale of the surface.
    pub covolume: u128,
    /// The logarithm of the mean co-volume, at least, in 2^-40.
    pub log_covolume: i128,
    /// The mean attraction over the mean co-volume, at least, in 2^-40.
    pub ratio: i128,
    pub ghost mixing_small: { unsigned_abs mixing ≤ 2 ^ 46 },
    pub ghost covolume_high: { covolume ≤ 2 ^ 61 },
    pub ghost log_small: { unsigned_abs log_covolume ≤ 2 ^ 46 },
    pub ghost ratio_small: { unsigned_abs ratio ≤ 2 ^ 47 },
}

/// The logarithms at a packing fraction, in 2^-40. Those that don't exist, at the packing fractions 0 and 1, are 0.
#[derive(Clone, Copy)]
pub struct PackingLogs {
    /// The packing fraction in 2^-40, from 0 to 1.
    pub packing: u64,
    /// The logarithm of the packing fraction, at least and at most.
    pub packing_low: i128,
    pub packing_high: i128,
    /// The logarithm of what the packing fraction leaves of 1, at least and at most.
    pub rest_low: i128,
    pub rest_high: i128,
    /// The logarithm of the attraction term, at least and at most.
    pub lambda_low: i128,
    pub lambda_high: i128,
    pub ghost inside: { packing ≤ 2 ^ 40 },
    pub ghost packing_low_small: { unsigned_abs packing_low ≤ 2 ^ 47 },
    pub ghost packing_high_small: { unsigned_abs packing_high ≤ 2 ^ 47 },
    pub ghost rest_low_small: { unsigned_abs rest_low ≤ 2 ^ 47 },
    pub ghost rest_high_small: { unsigned_abs rest_high ≤ 2 ^ 47 },
    pub ghost lambda_low_small: { unsigned_abs lambda_low ≤ 2 ^ 42 },
    pub ghost lambda_high_small: { unsigned_abs lambda_high ≤ 2 ^ 42 },
}

impl Default for PackingLogs {
    /// The packing fraction 0, without its logarithms.
    fn default() -> PackingLogs {
        PackingLogs {
            packing: 0,
            packing_low: 0,
            packing_high: 0,
            rest_low: 0,
            rest_high: 0,
            lambda_low: 0,
            lambda_high: 0,
        }
    }
}

/// What slope lows have of the compositions of a cell and of a plane: forms about the middle of the cell.
#[derive(Clone, Copy)]
pub struct MixSlope {
    /// The mixing terms.
    pub mixing: Slope,
    /// The logarithm of the mean co-volume.
    pub log_covolume: Slope,
    /// The mean attraction over the mean co-volume.
    pub ratio: Slope,
    /// The mean co-volume times the logarithm of e.
    pub push: Slope,
    pub plane: Slope,
    /// From the middle to both ends of each free fraction, in 2^-40.
    pub steps: [Iv; 3],
}

/// What slope lows have of the packing fractions of a cell: forms about the middle of the cell.
#[derive(Clone, Copy)]
pub struct PackingSlope {
    pub packing: Slope,
    /// The logarithm of the packing fraction.
    pub log_packing: Slope,
    /// The logarithm of what the packing fraction leaves of 1.
    pub log_rest: Slope,
    /// The logarithm of the attraction term.
    pub lambda: Slope,
    /// From the middle to both ends of the packing fraction, in 2^-40.
    pub step: Iv,
}
