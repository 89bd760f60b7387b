//! Lower bounds of the reduced energy over a cell, and of how far it lies above a tangent plane.
#![tactic(auto)]

mod cell_fractions;
mod forms;
mod fractions;
mod from_parts;
mod lower;
mod mix_forms;
mod mixes;
#[cfg(test)]
mod mixtures;
mod plain;
mod slope_attractions;
mod slope_lows;
mod slope_means;
mod slope_parts;
mod slope_planes;
#[cfg(test)]
mod slope_tests;
#[cfg(test)]
mod tests;
mod volumes;

pub use density_boxes::plane_hi;
pub use from_parts::{low_of_parts, mix_low};
pub use lower::low_energy;
pub use plain::low_plain;
pub use slope_lows::{low_slope, slope_of_parts};
pub use slope_parts::{mix_slope, packing_slope};
