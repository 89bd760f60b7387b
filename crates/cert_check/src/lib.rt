//! The checker of certificates.
//!
//! A certificate is accepted exactly where it is the text of a good one: its case is accepted, its pairs of ends are those of
//! the case, its split adds up to the feed, its energy and its gap are those of its numbers, and each leaf of its tree is as its
//! letter says. All that is computed anew; nothing is taken from the text on trust. [`check_stream`] takes no memory: it reads one
//! buffer at a time and keeps a line, the head and a stack of cells. [`check`] reads the whole text first. What is accepted is certified,
//! whatever made the certificate.
#![tactic(auto)]

mod broken;
mod checker;
mod kept;
mod laws;
mod leaves;
mod line;
mod line_count;
mod streams;
mod tail;
mod testing;
#[cfg(test)]
mod tests;

pub use broken::Broken;
pub use laws::{accepted_is_good, answers_are_accepted, good_certifies, good_is_accepted};
pub use streams::{check, check_stream};
