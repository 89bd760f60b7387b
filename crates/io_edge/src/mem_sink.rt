//! A sink in memory.

ghost use Rattle.std.specs.Prelude.{◌≡◌, ◌<◌, ◌≤◌, ◌+◌, ◌^◌, ◌↔◌, ◌⊎◌, ℕ, Some, [], false, length, vec_len, vec_capacity, IfOk};
ghost use Rattle.io_edge.specs.Bytes.{PutsOnce, put_failed};
ghost use Rattle.io_edge.specs.InMemory.{SinkState, next_call, IsDue, appended_count};

use crate::schedule::Schedule;
use crate::tally::Tally;
use crate::{Memory, Put, Sink};
use std::alloc::Global;
use std::marker::Model;

/// A sink over bytes in memory, which fails at planned calls and where no room is left.
///
/// Contracts see it as a `SinkState`.
#[derive(Drop)]
pub struct MemSink {
    bytes: Vec<u8>,
    room: usize,
    piece: usize,
    schedule: Schedule,
    tally: Tally,
}

impl Model for MemSink {
    ghost Value = { SinkState };

    ghost view = { λ s. record {
      held = s.bytes.items;
      room = s.room;
      plan = record { piece = s.piece; fails = s.schedule.fails.items };
      calls = s.schedule.calls;
      faults = s.tally.faults;
      failed = s.tally.failed;
    } };

    ghost invariant = { λ s. (vec_len s.bytes + s.room ≤ vec_capacity s.bytes) × (0 < s.piece) };
}

impl MemSink {
    /// An empty sink for `room` bytes that appends at most `piece` of them, at least one, at each
    /// call, and fails at the calls whose numbers, from 1, are in `fails`. A call that fails
    /// counts too. All the memory is taken here, so that a put takes none.
    ///
    /// # Errors
    ///
    /// [`Memory`] where there is no memory for `room` bytes.
    pub fn new(alloc: Global, room: usize, piece: usize, fails: Vec<u64>) -> Result<MemSink, Memory>
        requires { 0 < piece }
        ensures held { IfOk result (λ s. ⟦<MemSink as Sink>⟧.held s ≡ Some []) }
        ensures no_fault { IfOk result (λ s. ⟦<MemSink as Sink>⟧.faults s ≡ 0) }
        ensures last { IfOk result (λ s. ⟦<MemSink as Sink>⟧.failed s ≡ false) }
        ensures room { IfOk result (λ s. s.room ≡ room) }
        ensures plan { IfOk result (λ s. s.plan ≡ record { piece = piece; fails = fails.items }) }
        ensures calls { IfOk result (λ s. s.calls ≡ 0) }
    {
        let bytes = Vec::with_capacity(alloc, room)?;
        Ok(MemSink {
            bytes,
            room,
            piece,
            schedule: Schedule { fails, calls: 0 },
            tally: Tally::new(),
        })
    }

    /// The bytes that the sink holds.
    pub fn held(&self) -> &[u8]
        ensures { ⟦<MemSink as Sink>⟧.held self.now ≡ Some result.now }
    {
        &self.bytes
    }
}

impl Sink for MemSink {
    ghost held = { λ s. Some s.held };

    ghost faults = { λ s. s.faults };

    ghost failed = { λ s. s.failed };

    fn put(&mut self, piece: &[u8]) -> Put
        requires { 0 < length piece.now }
        ensures once { PutsOnce result piece.now (Some self.old.held) (Some self.new.held)
            self.old.faults self.new.faults }
        ensures last { self.new.failed ≡ put_failed result }
        ensures counter { self.new.faults < 2 ^ 64 }

        // Beyond what each sink promises: which calls fail, and the exact count of the others.
        ensures due { (result ≡ Put.Failed) ↔
            (IsDue self.old.plan self.old.calls ⊎ (self.old.room ≡ 0)) }
        ensures count { (n : ℕ) → result ≡ Put.Wrote n →
            n ≡ appended_count self.old (length piece.now) }
        ensures room { length self.new.held + self.new.room ≡
            length self.old.held + self.old.room }
        ensures calls { self.new.calls ≡ next_call self.old.calls }
        ensures plan { self.new.plan ≡ self.old.plan }
    {
        let is_due = self.schedule.is_next_due();
        if is_due || self.room == 0 {
            self.tally.note_failure();
            return Put::Failed;
        }
        self.tally.note_success();
        let count = self.piece.min(piece.len()).min(self.room);
        match self.bytes.extend_from_slice(&piece[..count]) {
            Ok(()) => {}
            Err(_) => unreachable!(),
        }
        self.room -= count;
        Put::Wrote(count)
    }
}
