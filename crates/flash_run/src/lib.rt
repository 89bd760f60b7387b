//! The top call: from words and a table to a report, a certificate or a phase boundary, and from a certificate to a verdict.
//!
//! [`run`] reads the words and the input, flashes, searches or checks, and writes what it came to. It answers with the status and with what it
//! printed, an [`End`].
#![tactic(auto)]

mod boundaries;
#[cfg(test)]
mod boundary_tests;
#[cfg(test)]
mod certificate_tests;
mod checking;
mod ends;
mod flashing;
#[cfg(test)]
mod tests;
mod top;
mod wanted;

pub use case_words::Word;
pub use ends::RunEnd;
pub use report_text::End;
pub use top::run;
