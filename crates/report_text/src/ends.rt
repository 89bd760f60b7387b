//! What a run came to.

ghost use Rattle.std.specs.Prelude.{◌≡◌};
ghost use Rattle.report_text.specs.Statuses.{status_of_outcome, status_of_verdict, status_of_edge};

use case_types::{Answer, EdgeAnswer, Outcome};
use case_words::{By, WordFault};
use cert_format::{CertFault, Verdict};
use component_table::{CaseFault, Picked, TableFault};
use pr_params::Params;

/// What is printed.
#[derive(Drop)]
pub enum End {
    /// The first fault of the words.
    Words(WordFault),
    /// The table or the certificate couldn't be read.
    Read,
    /// The table or the certificate has more bytes than it may have.
    TooLong,
    /// The first fault of the table.
    Table(TableFault),
    /// The first name without a component, or the range that the parameters break first.
    Case(CaseFault),
    /// The numbers of the case, its names, the tolerance and the answer of its flash.
    Flash(Params, Picked, u32, Answer),
    /// The numbers of the case and the answer of its flash, whose certificate is printed.
    Cert(Params, Answer),
    /// The verdict on a certificate.
    Checked(Verdict),
    /// The quantity that a search for a phase boundary went over, and its answer.
    Edge(By, EdgeAnswer),
    /// Memory was wanting: nothing is printed.
    Memory,
}

impl End {
    ghost use Rattle.report_text.specs.Statuses.{status_of};

    /// The status, where the text is written.
    pub fn status(&self) -> u8
        ensures { result ≡ status_of self.now }
    {
        match self {
            End::Words(_) => 2,
            End::Table(_) => 3,
            End::Case(_) => 4,
            End::Read => 6,
            End::Memory => 8,
            End::TooLong => 11,
            End::Flash(_, _, _, answer) => outcome_status(&answer.outcome),
            End::Cert(_, answer) => outcome_status(&answer.outcome),
            End::Checked(verdict) => verdict_status(*verdict),
            End::Edge(_, answer) => edge_status(answer),
        }
    }
}

/// The status of a flash.
fn outcome_status(outcome: &Outcome) -> u8
    ensures { result ≡ status_of_outcome outcome.now }
{
    match outcome {
        Outcome::Closed => 0,
        Outcome::Spent => 5,
        Outcome::Grain(_) => 5,
    }
}

/// The status of a verdict.
fn verdict_status(verdict: Verdict) -> u8
    ensures { result ≡ status_of_verdict verdict }
{
    match verdict {
        Verdict::Accepted { u: _, gap: _ } => 0,
        Verdict::ReadFault => 6,
        Verdict::Memory => 8,
        Verdict::Refused(CertFault::TooLong) => 11,
        _ => 9,
    }
}

/// The status of a search for a phase boundary.
fn edge_status(answer: &EdgeAnswer) -> u8
    ensures { result ≡ status_of_edge answer.now }
{
    match answer {
        EdgeAnswer::Bracket { lo: _, hi: _ } => 0,
        EdgeAnswer::NoEdge { lo: _, hi: _ } => 10,
        EdgeAnswer::Stopped {
            at: _,
            outcome: _,
            units: _,
        } => 5,
        EdgeAnswer::Refused { at: _, fault: _ } => 4,
    }
}
