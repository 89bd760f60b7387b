//! Intervals of whole numbers, rounded outward.
//!
//! An [`Iv`] with the ends `lo` and `hi` stands, at a scale `s` that its user keeps in mind, for
//! the numbers from `lo`/`s` to `hi`/`s`. Each operation gives its two ends exactly, and says in
//! its clause `holds` that fractions between the ends of the operands have their sum, product or
//! quotient between the ends of the result. Lower ends are rounded down and upper ends up.
#![tactic(auto)]

mod capped;
mod extremes;
mod linear;
mod ops;
mod products;
mod quotients;
mod ratio;
#[cfg(test)]
mod tests;

pub use capped::cap;
pub use extremes::outward;
pub use linear::{affine_high, affine_low};
pub use log_laws::Iv;
pub use ops::{add, hull, sub};
pub use products::{mul_ends, mul_shift, square_shift};
pub use quotients::{div_ends, div_shift};
pub use ratio::{ratio_ends, ratio_floor};
