//! The energy surface of Peng and Robinson: its bounds, that they bound the energy, its search, and the energies of its splits.
#![tactic(auto)]

mod laws;
mod peng_robinson;
#[cfg(test)]
mod searches;
mod searching;
mod splits;
#[cfg(test)]
mod tests;

pub use laws::{certificates_certify, lows_certify, numbers_bound};
pub use peng_robinson::PengRobinson;
pub use searching::search;
pub use splits::split_energy;
