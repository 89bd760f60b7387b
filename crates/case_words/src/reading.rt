//! The words, read in their order.

ghost use Rattle.std.specs.Prelude.{◌≡◌};
ghost use Rattle.case_words.specs.Answers.{Answers};
ghost use Rattle.case_words.specs.Jobs.{job_of, job_with};
ghost use Rattle.case_words.specs.Views.{plain_job};

use crate::commands::Command;
use crate::faults::WordFault;
use crate::gathering::Given;
use crate::jobs::Job;
use crate::words::Word;

/// The job that the words ask for, or their first fault: of the first word that it is no command, and of the others as
/// [`read_further`] says.
#[tactic(auto, unfolding(crate::specs::Jobs::job_of))]
pub fn read_words(words: &Vec<Word>) -> Result<Job, WordFault>
    ensures { Answers plain_job (job_of words.now.items) result }
{
    let [command, further @ ..] = words.as_slice() else {
        return Err(WordFault::NoCommand);
    };
    match Command::from_bytes(command.bytes()) {
        Some(command) => read_further(command, further),
        None => Err(WordFault::NoCommand),
    }
}

/// The job of a command with its further words, the first of which is word 2, or their first fault.
///
/// The words are taken in their order. Inside one word the order of faults is: no key of the command, a key that stood before,
/// more than four items, each item from the left, the total of the feed, a name that stands twice, ends that aren't in order,
/// feed and names that differ in length. After all words comes the first of the command's keys that didn't stand. `check` has no
/// key.
pub fn read_further(command: Command, words: &[Word]) -> Result<Job, WordFault>
    ensures { Answers plain_job (job_with command words.now) result }
{
    let mut given = Given::new();
    for (i, word) in words.iter().enumerate() {
        given.take(command, i + 2, word.bytes())?;
    }
    given.finish(command)
}
