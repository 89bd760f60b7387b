//! The whole program, over its words, its input and its output.

ghost use Rattle.std.specs.Prelude.{◌≡◌, ◌≢◌, ◌⊎◌, ◌≤◌, ◌+◌, true};
ghost use Rattle.case_words.specs.Jobs.{job_of};
ghost use Rattle.io_edge.specs.Causes.{CountsFault};
ghost use Rattle.io_edge.specs.Writing.{WritesAll, WritesSome};
ghost use Rattle.report_text.specs.ReportText.{report_text};
ghost use Rattle.report_text.specs.Statuses.{status_of};
ghost use Rattle.flash_run.specs.Ends.{CountsRead, Takes, Comes, Works};
ghost use Rattle.flash_run.specs.Headline.{Accepts, Answers, Returns};

use crate::checking::check_job;
use crate::ends::RunEnd;
use crate::flashing::table_job;
use crate::wanted::{Printed, Wanted};
use case_words::{Job, Word, read_words};
use io_edge::{Sink, Source, write_all};
use report_text::{End, report};
use std::alloc::Global;

/// The whole program: reads the words and the input, works, and writes what it came to.
///
/// The order of a flash or a search is: words, reading, a table that is too long, its form, names, parameters, the work, writing; that of a check: words, the certificate as it
/// is read, writing. Nothing is taken after a take that failed, nor put after a put that failed, and the text is whole before the first byte of it is put.
pub fn run<S: Source, K: Sink>(
    alloc: Global,
    words: &Vec<Word>,
    source: &mut S,
    sink: &mut K,
) -> RunEnd
    // Every flash and every end of a search is certified, for the words and all bytes of the input, and so is every certificate that is
    // accepted.
    ensures headline { Answers (job_of words.now.items) (S.left source.old) (S.left source.new) result.end }
    ensures accepted { Accepts (S.left source.old) result.end }
    ensures returned { Returns result.end }

    ensures status { (result.status ≡ 7) ⊎ (result.status ≡ status_of result.end) }
    ensures memory { result.end ≡ End.Memory → result.status ≡ 8 }

    // What is written, and the sink's count of faults.
    ensures written { result.status ≢ 7 → result.status ≢ 8 → WritesAll (report_text result.end)
        (K.held sink.old) (K.held sink.new) (K.faults sink.old) (K.faults sink.new) }
    ensures cut { result.status ≡ 7 → WritesSome (report_text result.end)
        (K.held sink.old) (K.held sink.new) (K.faults sink.old) (K.faults sink.new) }
    ensures nothing { result.status ≡ 8 → K.held sink.new ≡ K.held sink.old }
    ensures no_fault { result.status ≡ 8 → K.faults sink.new ≡ K.faults sink.old }
    ensures puts_once { K.faults sink.new ≤ K.faults sink.old + 1 }
    ensures last_put { result.status ≡ 7 → K.failed sink.new ≡ true }

    // The source's count of faults, and the bytes that were taken.
    ensures read_fault { result.status ≡ 6 → CountsFault (S.faults source.old) (S.faults source.new) }
    ensures reads { CountsRead result.end (S.faults source.old) (S.faults source.new) }
    ensures takes { Takes (job_of words.now.items) result.end (S.left source.old) (S.left source.new) }
    ensures takes_once { S.faults source.new ≤ S.faults source.old + 1 }
    ensures last_take { result.end ≡ End.Read → S.failed source.new ≡ true }
    ensures last_fault { S.faults source.new ≢ S.faults source.old → S.failed source.new ≡ true }

    // Why this is the end: of words, table and case the first fault, or else the flash with its lawful list of work, or the search with what each of its places is; of a certificate its verdict.
    ensures cause { Comes (job_of words.now.items) (S.left source.old) (S.left source.new) result.end }
{
    let end = work(alloc, words, source);
    let Ok(text) = report(alloc, &end) else {
        return RunEnd {
            status: 8,
            end: End::Memory,
        };
    };
    let status = match write_all(sink, &text) {
        Ok(()) => end.status(),
        Err(_) => 7,
    };
    RunEnd { status, end }
}

/// What the words and the input come to.
fn work<S: Source>(alloc: Global, words: &Vec<Word>, source: &mut S) -> End
    ensures { Works (job_of words.now.items) (S.left source.old) (S.left source.new)
        (S.faults source.old) (S.faults source.new) (S.failed source.new) result }
{
    match read_words(words) {
        Ok(Job::Tp(job)) => { table_job(alloc, Wanted::Flash(Printed::Report, &job), source) }
        Ok(Job::Cert(job)) => {
            table_job(alloc, Wanted::Flash(Printed::Certificate, &job), source)
        }
        Ok(Job::Check) => check_job(source),
        Ok(Job::Edge(job)) => table_job(alloc, Wanted::Boundary(&job), source),
        Err(fault) => End::Words(fault),
    }
}
