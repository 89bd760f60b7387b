//! Branch and bound under one tangent plane, of any energy surface.
//!
//! A bound of the energy is made of parts. A half of a cell has those that it shares with the cell; the others are made when
//! the half is looked at.
#![tactic(auto)]

#[cfg(test)]
mod bowls;
mod domain;
mod halves;
mod leaves;
mod looks;
mod middles;
mod parts;
mod planes;
mod points;
mod searching;
#[cfg(test)]
mod sloped_trials;
mod slopes;
mod stack;
#[cfg(test)]
mod tests;
#[cfg(test)]
mod trials;

pub use domain::whole_low;
pub use looks::{Looked, box_parts, look};
pub use parts::{BoxParts, Half, Shared};
pub use planes::{plane_at_feed, plane_on};
pub use points::column_at;
pub use searching::search;
