//! Decimals: from a text to its exact number or the first fault, and from a number to its exact text.
//!
//! A decimal is an optional `-` where a signed number is wanted, one or more digits, and then optionally a point and one or
//! more digits. It has at most 24 bytes. Its number is counted in units of the last of the wanted places.
#![tactic(auto)]

mod appending;
mod faults;
mod forms;
mod printing;
mod reading;
#[cfg(test)]
mod tests;
mod wholes;

pub use appending::{put_number, put_text};
pub use faults::DecFault;
pub use printing::{Text, fixed, whole};
pub use reading::{read_dec, read_signed};
pub use wholes::read_whole;
