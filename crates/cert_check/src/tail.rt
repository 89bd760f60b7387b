//! What follows the head, byte by byte.

ghost use Rattle.std.specs.Prelude.{◌≡◌, ◌≤◌, ◌+◌, [], length};
ghost use Rattle.cert_letters.specs.Readings.{fresh};
ghost use Rattle.cert_format.specs.Heads.{IsHead, said_of};
ghost use Rattle.cert_check.specs.Checking.{before_letters, TailTakes, place_in, verdict_in};
ghost use Rattle.case_types.specs.Grid.Cells.{region_of};
ghost use Rattle.cert_letters.specs.Steps.{mark_of};
ghost use Rattle.cert_check.specs.Tests.{passes};

use crate::kept::Kept;
use crate::leaves::leaf_passes;
use crate::line::LineStart;
use crate::line_count::lines_of;
use case_types::Cell;
use cert_format::{CertFault, Head, Verdict};
use cert_letters::{LeafHow, TreeReader, TreeStep};
use log_enclose::Logarithms;
use pr_params::Params;
use pr_surface::PengRobinson;
use std::marker::Model;

/// The part of the text behind the head that is read.
#[derive(Clone, Copy, Debug, PartialEq, Eq)]
pub enum Part {
    /// The line of letters.
    Letters,
    /// The line `end`.
    Closing,
    /// What may not follow it.
    Closed,
}

/// Checks what follows a head that passes its tests, byte by byte.
#[derive(Drop)]
pub struct Tail {
    head: Head,
    params: Params,
    part: Part,
    tree: TreeReader,
    kept: Kept,
    line: LineStart,
}

impl Model for Tail {
    ghost use Rattle.std.specs.Prelude.{◌≡◌};
    ghost use Rattle.cert_check.specs.Checking.{TailState, IsBegun};
    ghost use Rattle.cert_check.specs.Kept.{IsKeptIn};

    ghost Value = { TailState };

    ghost view = { λ s. record { part = s.part; head = s.head; reading = s.tree; line = s.line } };

    ghost invariant = { λ s. (s.params.case ≡ s.head.params.case) × IsBegun (record { part = s.part; head = s.head; reading = s.tree; line = s.line }) × IsKeptIn s.params.case s.head.plane.lam s.kept };
}

impl Tail {
    /// Before the first letter.
    pub fn new(head: Head, params: Params) -> Tail
        requires head { IsHead head }
        requires same { params.case ≡ head.params.case }
        ensures { result ≡ before_letters head }
    {
        let tree = TreeReader::new(head.params.case.n, head.letters);
        Tail {
            head,
            params,
            part: Part::Letters,
            tree,
            kept: Kept::nothing(),
            line: LineStart::new(),
        }
    }

    /// Takes the next byte.
    #[tactic(auto, unfolding(crate::specs::Judging::verdict_behind_end))]
    pub fn take(&mut self, logs: Logarithms, byte: u8) -> Option<Verdict>
        ensures { TailTakes self.old byte self.new result }
    {
        match self.part {
            Part::Letters => self.take_letter(logs, byte),
            Part::Closing => self.take_closing(byte),
            Part::Closed => Some(Verdict::Refused(CertFault::Extra(1))),
        }
    }

    /// The verdict where the text ends.
    #[tactic(auto, unfolding(cert_letters::specs::Lines::line_end, crate::specs::Judging::verdict_at_end, crate::specs::Judging::verdict_behind_end))]
    pub fn end(&self) -> Verdict
        ensures { result ≡ verdict_in self.now.part self.now [] }
    {
        match self.part {
            Part::Letters => Verdict::Refused(CertFault::Cut),
            Part::Closing => Verdict::Refused(CertFault::Cut),
            Part::Closed => Verdict::Accepted {
                u: self.head.u,
                gap: self.head.gap,
            },
        }
    }

    /// A byte of the line of letters.
    fn take_letter(&mut self, logs: Logarithms, byte: u8) -> Option<Verdict>
        requires { self.old.part ≡ Part.Letters }
        ensures { TailTakes self.old byte self.new result }
    {
        if self.tree.is_whole() && byte == b'\n' {
            self.part = Part::Closing;
            return None;
        }
        let place = self.place();
        match self.tree.step(byte) {
            TreeStep::Inner => None,
            TreeStep::Leaf {
                cell,
                how,
                index,
                last: _,
            } => {
                if self.passes(logs, &cell, how) {
                    None
                } else {
                    Some(Verdict::BadLeaf(index))
                }
            }
            TreeStep::Bad => Some(Verdict::Refused(CertFault::Tree(place))),
        }
    }

    /// The place of the next byte in the line of letters, from 1.
    fn place(&self) -> u32
        ensures { result ≡ place_in self.now.head self.now.reading }
    {
        self.head.letters - self.tree.left() + 1
    }

    /// Whether a leaf is as its letter says, and lies no lower than stated.
    fn passes(&mut self, logs: Logarithms, cell: &Cell, how: LeafHow) -> bool
        ensures value { result ≡ passes self.old.head (region_of cell.now) (mark_of how) }
        ensures same { self.new ≡ self.old }
    {
        let surface = PengRobinson {
            params: &self.params,
            logs,
        };
        leaf_passes(
            &surface,
            &self.head.plane,
            self.head.low,
            &mut self.kept,
            cell,
            how,
        )
    }

    /// A byte of the line `end`.
    fn take_closing(&mut self, byte: u8) -> Option<Verdict>
        requires { self.old.part ≡ Part.Closing }
        ensures { TailTakes self.old byte self.new result }
    {
        if byte != b'\n' {
            self.line.keep(byte);
            return None;
        }
        if self.line.bytes() == b"end".as_slice() {
            self.part = Part::Closed;
            None
        } else {
            Some(Verdict::Refused(CertFault::Line(lines_of(&self.head) + 2)))
        }
    }
}
