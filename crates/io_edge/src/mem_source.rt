//! A source in memory.

ghost use Rattle.std.specs.Prelude.{◌≡◌, ◌<◌, ◌≤◌, ◌^◌, ◌↔◌, ℕ, Some, false, take, drop, length, vec_len};
ghost use Rattle.io_edge.specs.Bytes.{TakesOnce, take_failed};
ghost use Rattle.io_edge.specs.InMemory.{SourceState, next_call, IsDue, given_count};

use crate::schedule::Schedule;
use crate::tally::Tally;
use crate::{Source, Taken};
use std::marker::Model;

/// A source over bytes in memory, which fails at planned calls.
///
/// Contracts see it as a `SourceState`.
#[derive(Drop)]
pub struct MemSource {
    bytes: Vec<u8>,
    at: usize,
    piece: usize,
    schedule: Schedule,
    tally: Tally,
}

impl Model for MemSource {
    ghost Value = { SourceState };

    ghost view = { λ s. record {
      left = drop s.at s.bytes.items;
      plan = record { piece = s.piece; fails = s.schedule.fails.items };
      calls = s.schedule.calls;
      faults = s.tally.faults;
      failed = s.tally.failed;
    } };

    ghost invariant = { λ s. (s.at ≤ vec_len s.bytes) × (0 < s.piece) };
}

impl MemSource {
    /// A source of `bytes` that gives at most `piece` of them, at least one, at each call, and
    /// fails at the calls whose numbers, from 1, are in `fails`. A call that fails counts too.
    pub fn new(bytes: Vec<u8>, piece: usize, fails: Vec<u64>) -> MemSource
        requires { 0 < piece }
        ensures left { ⟦<MemSource as Source>⟧.left result ≡ Some bytes.items }
        ensures no_fault { ⟦<MemSource as Source>⟧.faults result ≡ 0 }
        ensures last { ⟦<MemSource as Source>⟧.failed result ≡ false }
        ensures plan { result.plan ≡ record { piece = piece; fails = fails.items } }
        ensures calls { result.calls ≡ 0 }
    {
        MemSource {
            bytes,
            at: 0,
            piece,
            schedule: Schedule { fails, calls: 0 },
            tally: Tally::new(),
        }
    }

    /// The bytes that are left.
    pub fn left(&self) -> &[u8]
        ensures { ⟦<MemSource as Source>⟧.left self.now ≡ Some result.now }
    {
        &self.bytes[self.at..]
    }
}

impl Source for MemSource {
    ghost left = { λ s. Some s.left };

    ghost faults = { λ s. s.faults };

    ghost failed = { λ s. s.failed };

    fn take(&mut self, buf: &mut [u8]) -> Taken
        requires { 0 < length buf.old }
        ensures once { TakesOnce result buf.new (Some self.old.left) (Some self.new.left)
            self.old.faults self.new.faults }
        ensures last { self.new.failed ≡ take_failed result }
        ensures counter { self.new.faults < 2 ^ 64 }

        // Beyond what each source promises: which calls fail, and the exact count of the others.
        ensures due { (result ≡ Taken.Failed) ↔ IsDue self.old.plan self.old.calls }
        ensures count { (n : ℕ) → result ≡ Taken.Bytes n →
            n ≡ given_count self.old (length buf.old) }
        ensures calls { self.new.calls ≡ next_call self.old.calls }
        ensures plan { self.new.plan ≡ self.old.plan }
    {
        if self.schedule.is_next_due() {
            self.tally.note_failure();
            return Taken::Failed;
        }
        self.tally.note_success();
        let count = self.piece.min(buf.len()).min(self.bytes.len() - self.at);
        if count == 0 {
            return Taken::End;
        }
        let from = self.at;
        copy_front(&self.bytes[from..], buf, count);
        self.at = from + count;
        Taken::Bytes(count)
    }
}

/// Copies the first `count` bytes of `from` to the front of `to`.
fn copy_front(from: &[u8], to: &mut [u8], count: usize)
    requires has { count ≤ length from.now }
    requires room { count ≤ length to.old }
    ensures { take count to.new ≡ take count from.now }
{
    to[..count].copy_from_slice(&from[..count]);
}
