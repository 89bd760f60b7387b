//! The energy of a split, at most, on any energy surface: each phase by its share of the feed. The feed in one phase, and which of its
//! states has the least energy.
#![tactic(auto)]

mod feeds;
mod phases;
mod scans;
mod shares;
mod splits;

pub use feeds::{feed_as_phase, one_phase};
pub use phases::phase_energy;
pub use scans::{PACKINGS, Scanned, half, lowest, scan};
pub use shares::energy_share;
pub use splits::split_energy;
