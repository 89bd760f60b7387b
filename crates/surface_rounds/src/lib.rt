//! The rounds of a flash over any energy surface of one to four components.
//!
//! A round solves a linear program over the columns that are kept, for the split and the tangent plane of its optimum, and
//! searches for a grid point below the plane. Where the search clears the whole domain the flash is closed; a grid point that
//! lies deep enough below the plane is kept as a column of the next round. This is the tangent plane criterion (Baker, Pierce
//! and Luks 1982) by column generation.
#![tactic(auto)]

mod answers;
mod choices;
mod flashing;
mod guides;
mod optimizing;
mod pure_columns;
mod rivals;
mod rounds;
mod splits;
mod stages;

pub use flashing::flashed;
pub use guides::{COLUMNS, Guesses, Guide, SPLITS};
pub use split_energies::PACKINGS;
