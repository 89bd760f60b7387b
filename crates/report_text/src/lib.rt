//! What a run came to, and the text of it.
//!
//! [`report`] makes the text of an [`End`]: of a refusal one line, of a flash the report or the certificate, of a
//! certificate that was checked the verdict, of a search for a phase boundary its ends or where it stopped, and of want of memory
//! nothing. What the lines are stands in `specs/ReportText.antt`, `specs/VerdictText.antt` and `specs/EdgeText.antt`, byte for byte.
#![tactic(auto)]

#[cfg(test)]
mod edge_tests;
mod edge_texts;
mod enclosures;
mod ends;
mod joules;
mod refusals;
#[cfg(test)]
mod report_tests;
mod reports;
mod texts;
#[cfg(test)]
mod verdict_tests;
mod verdict_texts;

pub use ends::End;
pub use reports::report;
