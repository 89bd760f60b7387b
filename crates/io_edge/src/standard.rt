//! The readers and the writers of `std` as sources and sinks.

ghost use Rattle.std.specs.Prelude.{◌≡◌, None, false};
ghost use Rattle.std.specs.Io.{WritesAtMost};

use crate::tally::Tally;
use crate::{Put, Sink, Source, Taken};
use std::io;
use std::io::{Read, Write};

/// A source over a reader of `std`. It tells nothing of its bytes.
///
/// Each error of the reader is a fault, [`io::ErrorKind::Interrupted`] too.
#[derive(Drop)]
pub struct StdSource<R: Read> {
    inner: R,
    tally: Tally,
}

impl<R: Read> StdSource<R> {
    /// A source over `inner` with no fault yet. It takes no memory.
    pub fn new(inner: R) -> Self
        ensures left { ⟦<StdSource<R> as Source>⟧.left result ≡ None }
        ensures no_fault { ⟦<StdSource<R> as Source>⟧.faults result ≡ 0 }
        ensures last { ⟦<StdSource<R> as Source>⟧.failed result ≡ false }
    {
        StdSource {
            inner,
            tally: Tally::new(),
        }
    }
}

impl<R: Read> Source for StdSource<R> {
    ghost left = { λ _. None };

    ghost faults = { λ s. s.tally.faults };

    ghost failed = { λ s. s.tally.failed };

    fn take(&mut self, buf: &mut [u8]) -> Taken {
        match self.inner.read(buf) {
            Ok(count) => {
                self.tally.note_success();
                if count == 0 {
                    Taken::End
                } else {
                    Taken::Bytes(count)
                }
            }
            Err(_) => {
                self.tally.note_failure();
                Taken::Failed
            }
        }
    }
}

/// A sink over a writer of `std`. It tells nothing of its bytes, and flushes each piece.
///
/// Each error of the writer is a fault, [`io::ErrorKind::Interrupted`] too, and so is a write
/// that takes no byte. Where a flush fails, the writer may have taken bytes that the sink does
/// not count.
#[derive(Drop)]
pub struct StdSink<W: Write> {
    inner: W,
    tally: Tally,
}

impl<W: Write> StdSink<W> {
    /// A sink over `inner` with no fault yet. It takes no memory.
    pub fn new(inner: W) -> Self
        ensures held { ⟦<StdSink<W> as Sink>⟧.held result ≡ None }
        ensures no_fault { ⟦<StdSink<W> as Sink>⟧.faults result ≡ 0 }
        ensures last { ⟦<StdSink<W> as Sink>⟧.failed result ≡ false }
    {
        StdSink {
            inner,
            tally: Tally::new(),
        }
    }
}

impl<W: Write> Sink for StdSink<W> {
    ghost held = { λ _. None };

    ghost faults = { λ s. s.tally.faults };

    ghost failed = { λ s. s.tally.failed };

    fn put(&mut self, piece: &[u8]) -> Put {
        match write_flushed(&mut self.inner, piece) {
            Ok(count) if count > 0 => {
                self.tally.note_success();
                Put::Wrote(count)
            }
            _ => {
                self.tally.note_failure();
                Put::Failed
            }
        }
    }
}

/// Writes the first bytes of a piece and flushes them, and answers how many they are.
fn write_flushed<W: Write>(inner: &mut W, piece: &[u8]) -> io::Result<usize>
    ensures { WritesAtMost result piece.now }
{
    let count = inner.write(piece)?;
    inner.flush()?;
    Ok(count)
}
