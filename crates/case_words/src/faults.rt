//! What may be wrong with words.

use crate::keys::Key;
use dec_text::DecFault;

/// The first fault of the words. A number is the place of a word, the command being word 1.
#[derive(Clone, Copy, Debug, PartialEq, Eq)]
pub enum WordFault {
    /// There is no word, or the first is no command.
    NoCommand,
    /// The word has no `=`, or its key isn't one of the command.
    Unknown(usize),
    /// The key of the word stood before, or a name stands twice in the list.
    Twice(usize),
    /// A number or a name of the word isn't one.
    Value(usize, DecFault),
    /// A number of the word, or the total of the feed, is outside its range.
    Range(usize),
    /// A list has more than four items, or the feed and the names differ in length.
    Count(usize),
    /// The first key that doesn't stand.
    Missing(Key),
}
