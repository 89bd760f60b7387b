//! Near chemical potentials of the components of a phase.
//!
//! They are guesses, from which candidate planes are made. Nothing is promised of how near they are, only how large.
#![tactic(auto)]

mod compositions;
mod kept;
mod means;
mod near;
mod terms;
#[cfg(test)]
mod tests;

pub use near::mu_near;
