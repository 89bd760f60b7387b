//! Upper bounds of the reduced energy: Helmholtz energy plus pressure times volume, over RT ln 2, per mole.
#![tactic(auto)]

mod from_parts;
mod mixes;
#[cfg(test)]
mod mixtures;
#[cfg(test)]
mod tests;
mod upper;
mod volumes;

pub use from_parts::{mix_up, up_of_parts};
pub use upper::energy_up;
