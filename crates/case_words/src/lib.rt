//! The words of the command line: the job that they ask for, or the first fault with its place.
//!
//! The first word is the command, every other is `key=value`. [`read_words`] answers exactly the job of its words, or exactly
//! their first fault. It takes no memory. The commands are `tp`, `cert`, `check`, and the searches for a phase boundary `bubble-p`,
//! `dew-p`, `bubble-t` and `dew-t`. `tp` and `cert` have the same keys; a search has the ends and the width of the quantity that it goes
//! over in the place of that quantity. Each key stands once, in any order, but for the edition of the equation, which may be left out;
//! `check` has none.
#![tactic(auto)]

mod boundaries;
mod commands;
#[cfg(test)]
mod edge_tests;
mod faults;
mod gathering;
mod items;
mod jobs;
mod keys;
mod names;
mod reading;
#[cfg(test)]
mod tests;
mod words;

pub use boundaries::{By, EdgeWords, Side};
pub use commands::Command;
pub use faults::WordFault;
pub use jobs::{FlashWords, Job};
pub use keys::Key;
pub use names::{name_text, put_name, read_name};
pub use reading::{read_further, read_words};
pub use words::Word;
