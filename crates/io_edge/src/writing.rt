//! Writing a whole text to a sink.

ghost use Rattle.std.specs.Prelude.{◌≡◌, OnOk, OnErr, true};
ghost use Rattle.io_edge.specs.Writing.{WritesAll, WritesSome};

use crate::{Put, Sink};

/// A sink failed.
#[derive(Clone, Copy, Debug, PartialEq, Eq)]
pub struct WriteFault;

/// Writes all the bytes, in as many puts as the sink wants.
///
/// # Errors
///
/// [`WriteFault`] at the first put that fails, and nothing is put after it. The sink then holds a
/// proper prefix of the bytes behind what it held, and its count of faults rose by one.
pub fn write_all<K: Sink>(sink: &mut K, bytes: &[u8]) -> Result<(), WriteFault>
    ensures ok { OnOk result (WritesAll bytes.now (K.held sink.old) (K.held sink.new)
        (K.faults sink.old) (K.faults sink.new)) }
    ensures err { OnErr result (WritesSome bytes.now (K.held sink.old) (K.held sink.new)
        (K.faults sink.old) (K.faults sink.new)) }
    ensures last { OnErr result (K.failed sink.new ≡ true) }
{
    let mut done = 0;
    while done < bytes.len() {
        match sink.put(&bytes[done..]) {
            Put::Wrote(count) => done += count,
            Put::Failed => return Err(WriteFault),
        }
    }
    Ok(())
}
