//! How much of a feed is vapour, where the ratios of the fractions in vapour and liquid are known: Rachford and Rice 1952.
//!
//! With the ratios K of the components and the share V of the vapour, the fractions of vapour and liquid differ in all by the
//! sum of z (K - 1) / (1 + V (K - 1)), which never rises with V. [`rr`] finds between which neighbours on the grid of 2^-20 it
//! changes its sign.
#![tactic(auto)]

mod shares;
mod sums;
#[cfg(test)]
mod tests;

pub use shares::{VapourShare, rr};
pub use sums::sum_never_rises;
