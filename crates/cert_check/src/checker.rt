//! The checker, byte by byte.

ghost use Rattle.std.specs.Prelude.{◌≡◌, [], ◌∷◌, None, Some, IfOk, IfErr};
ghost use Rattle.cert_format.specs.Heads.{IsHead};
ghost use Rattle.cert_lines.specs.Heads.{blank};
ghost use Rattle.cert_check.specs.Checking.{Gives, InHead, Takes, before_letters};
ghost use Rattle.cert_check.specs.Judging.{verdict_of};
ghost use Rattle.cert_check.specs.Streams.{past_limit};
ghost use Rattle.cert_check.specs.Tests.{first_broken};

use crate::broken::Broken;
use crate::line::LineStart;
use crate::tail::Tail;
use crate::testing::first_broken;
use cert_format::{CertFault, Head, HeadReader, HeadStep, Verdict};
use log_enclose::Logarithms;
use std::marker::Model;

/// Checks a certificate, byte by byte. Each byte is looked at once, and no more is kept than a line, the head and the cells of the
/// tree that have no letter yet.
#[derive(Drop)]
pub struct Checker<'a> {
    reader: HeadReader,
    line: LineStart,
    tail: Option<Tail>,
    logs: Logarithms<'a>,
}

impl<'a> Model for Checker<'a> {
    ghost use Rattle.cert_check.specs.Checking.{State, state_of, IsOpen};

    ghost Value = { State };

    ghost view = { λ s. state_of s.reader s.line s.tail };

    ghost invariant = { λ s. IsOpen (state_of s.reader s.line s.tail) };
}

impl<'a> Checker<'a> {
    /// Before the first byte.
    pub fn new(logs: Logarithms<'a>) -> Checker<'a>
        ensures { result ≡ InHead blank [] }
    {
        Checker {
            reader: HeadReader::new(),
            line: LineStart::new(),
            tail: None,
            logs,
        }
    }

    /// Takes the next bytes, up to the first verdict.
    pub fn take_all(&mut self, bytes: &[u8]) -> Option<Verdict>
        ensures { Takes self.old bytes.now self.new result }
    {
        for byte in bytes {
            if let Some(verdict) = self.take(*byte) {
                return Some(verdict);
            }
        }
        None
    }

    /// The verdict where the text ends.
    pub fn end(&self) -> Verdict
        ensures { Gives self.now [] result }
    {
        match &self.tail {
            Some(tail) => tail.end(),
            None => Verdict::Refused(CertFault::Cut),
        }
    }

    /// Takes the next byte.
    fn take(&mut self, byte: u8) -> Option<Verdict>
        ensures { Takes self.old (byte ∷ []) self.new result }
    {
        if let Some(tail) = &mut self.tail {
            return tail.take(self.logs, byte);
        }
        if byte != b'\n' {
            self.line.keep(byte);
            return None;
        }
        match self.reader.line(self.line.bytes()) {
            HeadStep::More => {
                self.line.clear();
                None
            }
            HeadStep::Done(head) => {
                self.reader = HeadReader::new();
                match tail_of(head) {
                    Ok(tail) => {
                        self.tail = Some(tail);
                        None
                    }
                    Err(broken) => Some(verdict_of(broken)),
                }
            }
            HeadStep::Bad(fault) => Some(Verdict::Refused(fault)),
        }
    }
}

/// What checks the text behind this head, or the first test of the head that breaks.
fn tail_of(head: Head) -> Result<Tail, Broken>
    requires { IsHead head }
    ensures ok { IfOk result (λ t. t ≡ before_letters head) }
    ensures whole { IfOk result (λ t. first_broken head ≡ None) }
    ensures broken { IfErr result (λ b. first_broken head ≡ Some b) }
{
    let params = first_broken(&head)?;
    Ok(Tail::new(head, params))
}

/// The verdict on a head that breaks this test.
fn verdict_of(broken: Broken) -> Verdict
    ensures verdict { result ≡ verdict_of broken }
    ensures settled { past_limit result ≡ result }
{
    match broken {
        Broken::Params => Verdict::BadParams,
        Broken::Balance(component) => Verdict::BadBalance(component),
        Broken::Energy => Verdict::BadEnergy,
        Broken::Gap => Verdict::BadGap,
    }
}
