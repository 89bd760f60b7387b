//! Candidate splits of the feed into phases, from a near flash.
#![tactic(auto)]

mod amounts;
mod beside;
mod carried;
mod choosing;
mod coefficients;
mod columns;
mod grid;
#[cfg(test)]
mod levels;
mod list;
mod near_flash;
mod places;
mod points;
mod polishing;
mod settling;
mod shares;
mod starts;
mod substituting;
#[cfg(test)]
mod tests;
mod trials;
mod two_phases;
mod weights;

pub use choosing::near_points;
pub use columns::columns_of;
pub use grid::to_grid;
pub use list::candidates;
pub use points::Near;
pub use polishing::polish;
pub use settling::settled;
pub use substituting::toward;
pub use two_phases::two_phase;
