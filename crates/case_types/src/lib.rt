//! The shared types of the flash, and the definitions that every theorem stands on.
//!
//! A [`Case`] is what is to be flashed. A [`Split`] is an answer, a [`Work`] the steps that led to it. What a type keeps
//! (ranges, order, sums) stands beside its fields. The definitions are in `specs/`: what a division of the feed and its
//! energy are, what it means that an answer is certified, and the whole numbers that bounds of energies are made of.
#![tactic(auto)]

mod adding;
mod answers;
mod cases;
mod cells;
mod edges;
mod heats;
mod laws;
mod lists;
mod parts;
mod phases;
mod pivots;
mod planes;
mod rounds;
mod units;

pub use adding::adds_up;
pub use answers::{Answer, FlashFault, Outcome, Work};
pub use cases::{Case, Edition, Name, PAIRS, ParamFault, Row, SLOTS};
pub use cells::{BoxX, Cell};
pub use edges::{EdgeAnswer, EdgeEnd, Kind};
pub use heats::{PhAnswer, PhEnd};
pub use laws::trees_cover;
pub use lists::{Columns, Letters, Memory, Pivots, Reserved, Rounds};
pub use parts::{MixLow, MixSlope, MixUp, PackingLogs, PackingSlope};
pub use phases::{Phase, Split};
pub use pivots::Pivot;
pub use planes::Plane;
pub use rounds::{Column, Round, RoundEnd};
pub use units::Units;
