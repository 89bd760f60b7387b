//! Reading a source to its end.

ghost use Rattle.std.specs.Prelude.{◌≡◌, ◌<◌, ◌^◌, IfOk, IfErr, true};
ghost use Rattle.io_edge.specs.Reading.{ReadsAll, StopsReading};

use crate::{Memory, Source, Taken};
use std::alloc::Global;

/// The most bytes that [`read_all`] takes at once.
const BUFFER_SIZE: usize = 4096;

/// Why [`read_all`] stopped before the end.
#[derive(Clone, Copy, Debug, PartialEq, Eq)]
pub enum ReadStop {
    /// The source failed. Nothing was taken after that.
    Failed,
    /// The source had more bytes than the limit. One byte past it was taken.
    TooLong,
    /// There was no memory for the bytes that were taken.
    Memory,
}

impl From<Memory> for ReadStop {
    ghost use Rattle.std.specs.Prelude.{◌≡◌};
    ghost use Rattle.io_edge.specs.declared.reading.ReadStop.TheVariants.{Memory};

    ghost from_gives = { λ _ stop. stop ≡ Memory };

    fn from(_: Memory) -> Self {
        ReadStop::Memory
    }
}

/// Reads a source to its end: all the bytes that it had left, at most `limit`.
///
/// At most one byte past the limit is taken. The limit must be below `2^62`.
///
/// # Errors
///
/// See [`ReadStop`]. The bytes taken before a stop are lost, and what the source has left then
/// stays in it. Its count of faults rises at [`ReadStop::Failed`] alone, and there by one.
pub fn read_all<S: Source>(alloc: Global, source: &mut S, limit: usize) -> Result<Vec<u8>, ReadStop>
    requires { limit < 2 ^ 62 }
    ensures ok { IfOk result (λ v. ReadsAll v.items limit
        (S.left source.old) (S.left source.new) (S.faults source.old) (S.faults source.new)) }
    ensures err { IfErr result (λ e. StopsReading e limit
        (S.left source.old) (S.left source.new) (S.faults source.old) (S.faults source.new)) }
    ensures last { result ≡ Err ReadStop.Failed → S.failed source.new ≡ true }
{
    let mut bytes = Vec::new(alloc);
    let mut buf = [0u8; BUFFER_SIZE];
    while bytes.len() <= limit {
        let most = (limit + 1 - bytes.len()).min(BUFFER_SIZE);
        match source.take(&mut buf[..most]) {
            Taken::Bytes(count) => bytes.extend_from_slice(&buf[..count])?,
            Taken::End => return Ok(bytes),
            Taken::Failed => return Err(ReadStop::Failed),
        }
    }
    Err(ReadStop::TooLong)
}
