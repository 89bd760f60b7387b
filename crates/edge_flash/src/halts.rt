//! What ends a search before its ends are near one another.

use case_types::{EdgeAnswer, Memory};

/// What ends a search before its ends are near one another.
#[derive(Debug, Drop)]
pub enum Halt {
    /// Want of memory.
    Memory(Memory),
    /// An answer.
    Answer(EdgeAnswer),
}
