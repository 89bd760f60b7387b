//! The head of a certificate's text, read line by line.
//!
//! A certificate says a case, the pairs of its roots and of log2 e, a split with its energy, a plane and how low the energy
//! lies over it, each on a line of its own, and then the letters of a tree. A line is a word, on some lines a name, and whole
//! numbers, each behind one space; the numbers have ranges. Version 2 says the edition of the equation, which is that of 1976 in
//! version 1. A head has one spelling: what is read is exactly what is written.
#![tactic(auto)]

mod faults;
mod forms;
mod indices;
mod laws;
mod line_reader;
mod lines;
mod places;

pub use faults::CertFault;
pub use forms::{is_named, word_of};
pub use laws::{
    feed_fits, heads_are_read, heads_are_texts, lines_are_found, lines_are_short, lines_fit,
    lines_suit, numbers_fit, places_are_found, places_stand, whole_heads_have_all,
};
pub use line_reader::{LineReader, LineStep};
pub use lines::{Entry, Range};
pub use places::{Place, Shape, place_at};
