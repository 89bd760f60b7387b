//! How a run ended.

use report_text::End;

/// How a run ended: its status and what it came to.
#[derive(Drop)]
pub struct RunEnd {
    /// The status of the end, or 7 where its text wasn't written whole.
    pub status: u8,
    /// What the run came to.
    pub end: End,
}
