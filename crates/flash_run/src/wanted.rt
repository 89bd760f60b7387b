//! What is wanted of a table.

ghost use Rattle.std.specs.Prelude.{◌≡◌};
ghost use Rattle.case_words.specs.Views.{asked_by};
ghost use Rattle.flash_run.specs.Wanting.{named_by};

use case_words::{EdgeWords, FlashWords};

/// What is printed of a flash.
#[derive(Clone, Copy, Debug, PartialEq, Eq)]
pub enum Printed {
    /// Its report.
    Report,
    /// The certificate of its answer.
    Certificate,
}

/// What is wanted of a table.
#[derive(Clone, Copy)]
pub enum Wanted<'a> {
    /// A flash.
    Flash(Printed, &'a FlashWords),
    /// A search for a phase boundary.
    Boundary(&'a EdgeWords),
}

impl<'a> Wanted<'a> {
    /// What a flash of the case is asked of: of a search, that at its lower end.
    pub fn base(self) -> &'a FlashWords
        ensures { asked_by result.now ≡ named_by self.entry }
    {
        match self {
            Wanted::Flash(_, job) => job,
            Wanted::Boundary(job) => &job.base,
        }
    }
}
