//! The table of components: its rows and their places, or the first fault with its place.
//!
//! The table is a text of comma-separated records without a header. [`read_table`] answers exactly the table of its records, or
//! exactly their first fault. The only other answer is want of memory. [`pick`] answers the case of the components that a job names,
//! and [`need_cp`] which of them has no heat capacity.
#![tactic(auto)]

mod capacities;
mod cases;
mod chosen;
mod draft;
mod faults;
mod finding;
mod live_names;
mod numbers;
mod picking;
mod reading;
mod records;
mod rows;
mod tables;
#[cfg(test)]
mod tests;

pub use capacities::need_cp;
pub use cases::{CaseFault, Picked};
pub use faults::{TableError, TableFault};
pub use picking::pick;
pub use reading::read_table;
pub use rows::{CpRow, PairRow};
pub use tables::Table;
