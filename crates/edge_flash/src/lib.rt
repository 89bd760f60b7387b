//! The ends of a phase boundary: a search between two places, at each of which a certified flash and a walk over the states of one phase
//! say whether the feed is divided, liquid or vapour.
#![tactic(auto)]

mod bisecting;
mod cases;
mod classed;
mod ends;
mod fibres;
mod flash_places;
mod halts;
#[cfg(test)]
mod listed;
mod peng_robinson;
mod places;
#[cfg(test)]
mod tests;

pub use bisecting::bisect;
pub use classed::Classed;
pub use fibres::{OnePhase, Walked};
pub use flash_places::edge_by;
pub use peng_robinson::edge;
pub use places::Classify;
