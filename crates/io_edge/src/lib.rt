//! Where bytes come from and where they go, with a count of the faults on the way.
//!
//! A [`Source`] gives its bytes and a [`Sink`] takes them in pieces, at most one for each call.
//! [`read_all`] and [`write_all`] move a whole text through either.
//! [`MemSource`] and [`MemSink`] work on bytes in memory and fail where a plan says so.
//! [`StdSource`] and [`StdSink`] adapt the readers and the writers of `std`. They are the trusted
//! edge: their contracts say nothing of the bytes that pass.
#![tactic(auto)]

ghost use Rattle.std.specs.Prelude.{◌≡◌, ◌<◌, ◌^◌, ℕ, List, Bool, length};
ghost use Rattle.std.specs.declared.option.Option.{Option};

mod mem_sink;
mod mem_source;
mod reading;
mod schedule;
mod standard;
mod tally;
#[cfg(test)]
mod tests;
mod writing;

pub use mem_sink::MemSink;
pub use mem_source::MemSource;
pub use reading::{ReadStop, read_all};
pub use standard::{StdSink, StdSource};
use std::alloc::AllocError;
pub use writing::{WriteFault, write_all};

/// The memory ran out.
pub type Memory = AllocError;

/// What a call of [`Source::take`] answers.
#[derive(Clone, Copy, Debug, PartialEq, Eq)]
pub enum Taken {
    /// So many bytes, at least one, stand at the front of the buffer.
    Bytes(usize),
    /// No byte is left.
    End,
    /// The call failed, and took no byte.
    Failed,
}

/// What a call of [`Sink::put`] answers.
#[derive(Clone, Copy, Debug, PartialEq, Eq)]
pub enum Put {
    /// So many bytes, at least one, were appended.
    Wrote(usize),
    /// The call failed, and appended no byte.
    Failed,
}

/// A source of bytes, which counts its faults.
pub trait Source {
    ghost use Rattle.io_edge.specs.Bytes.{TakesOnce, take_failed};

    /// The bytes that are left, where the source tells them.
    ghost left: { Self → Option (List ℕ) };

    /// How many calls failed. The count never falls, and stops at `2^64-1`.
    ghost faults: { Self → ℕ };

    /// Whether the last call failed.
    ghost failed: { Self → Bool };

    /// Takes the next bytes, at least one of them where one is left, into the front of `buf`,
    /// which must not be empty.
    ///
    /// [`Taken::Bytes`] and [`Taken::End`] leave the count of faults as it was.
    /// [`Taken::Failed`] raises it by one and leaves the bytes for a later call.
    /// What `buf` holds past the bytes taken is left open.
    fn take(&mut self, buf: &mut [u8]) -> Taken
        requires { 0 < length buf.old }
        ensures once { TakesOnce result buf.new (left self.old) (left self.new)
            (faults self.old) (faults self.new) }
        ensures last { failed self.new ≡ take_failed result }
        ensures counter { faults self.new < 2 ^ 64 };
}

/// A sink of bytes, which counts its faults.
pub trait Sink {
    ghost use Rattle.io_edge.specs.Bytes.{PutsOnce, put_failed};

    /// The bytes that the sink holds, where it tells them.
    ghost held: { Self → Option (List ℕ) };

    /// How many calls failed. The count never falls, and stops at `2^64-1`.
    ghost faults: { Self → ℕ };

    /// Whether the last call failed.
    ghost failed: { Self → Bool };

    /// Appends the first bytes of `piece`, which must not be empty, and at least one of them.
    ///
    /// [`Put::Wrote`] leaves the count of faults as it was.
    /// [`Put::Failed`] raises it by one and leaves the bytes that the sink holds.
    fn put(&mut self, piece: &[u8]) -> Put
        requires { 0 < length piece.now }
        ensures once { PutsOnce result piece.now (held self.old) (held self.new)
            (faults self.old) (faults self.new) }
        ensures last { failed self.new ≡ put_failed result }
        ensures counter { faults self.new < 2 ^ 64 };
}
