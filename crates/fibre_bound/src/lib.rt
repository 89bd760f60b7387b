//! The feed in one phase: a state of low energy, and a bound that no state of the feed in one phase has an energy below, over all
//! packing fractions.
//!
//! Cells of packing fractions are halved until the lower bound of each is near the least upper energy that was met.
#![tactic(auto)]

mod bounds;
mod cells;
mod feeds;
mod fibres;
mod laws;
mod lows;
mod stack;
mod walking;

pub use feeds::feed_box;
pub use fibres::{Fibre, FibreEnd};
pub use laws::fibres_hold;
pub use walking::one_phase;
