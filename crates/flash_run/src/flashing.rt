//! What the bytes of a table come to: a flash of what is asked, or a search.

ghost use Rattle.std.specs.Prelude.{ℕ, List, ◌≤◌, length, Ok};
ghost use Rattle.case_words.specs.Views.{asked_by};
ghost use Rattle.flash_run.specs.Ends.{IsWorked, Works};
ghost use Rattle.flash_run.specs.Headline.{IsCase};
ghost use Rattle.flash_run.specs.Wanting.{flash_for, job_for, named_by};

use crate::boundaries::searched;
use crate::wanted::{Printed, Wanted};
use case_words::FlashWords;
use cert_format::{head_is_sized, head_of};
use component_table::{CaseFault, Picked, TableError, pick, read_table};
use io_edge::{ReadStop, Source, read_all};
use plane_rounds::flash_tp;
use pr_params::params;
use report_text::End;
use std::alloc::Global;

/// The most bytes of a table.
const LIMIT: usize = 4_194_304;

/// What comes of what is wanted and of the table on the source.
pub fn table_job<S: Source>(alloc: Global, wanted: Wanted, source: &mut S) -> End
    ensures { Works (Ok (job_for wanted.entry)) (S.left source.old) (S.left source.new)
        (S.faults source.old) (S.faults source.new) (S.failed source.new) result }
{
    let bytes = match read_all(alloc, source, LIMIT) {
        Ok(bytes) => bytes,
        Err(ReadStop::Failed) => return End::Read,
        Err(ReadStop::TooLong) => return End::TooLong,
        Err(ReadStop::Memory) => return End::Memory,
    };
    judge(alloc, wanted, &bytes)
}

/// What comes of what is wanted and of the bytes of a table.
fn judge(alloc: Global, wanted: Wanted, bytes: &[u8]) -> End
    requires { length bytes.now ≤ 4194304 }
    ensures { IsWorked (job_for wanted.entry) (named_by wanted.entry) bytes.now result }
{
    let table = match read_table(alloc, bytes) {
        Ok(table) => table,
        Err(TableError::Fault(fault)) => return End::Table(fault),
        Err(TableError::Memory) => return End::Memory,
    };
    let picked = match pick(&table, wanted.base()) {
        Ok(picked) => picked,
        Err(fault) => return End::Case(fault),
    };
    match wanted {
        Wanted::Flash(printed, job) => flashed(alloc, printed, job, picked),
        Wanted::Boundary(job) => searched(alloc, job, &picked),
    }
}

/// The flash of the case that was picked, or the range that its parameters break first.
fn flashed(alloc: Global, printed: Printed, job: &FlashWords, picked: Picked) -> End
    ensures { (bytes : List ℕ) → IsCase (asked_by job.now) bytes picked → IsWorked (flash_for printed (asked_by job.now)) (asked_by job.now) bytes result }
{
    let params = match params(&picked.case) {
        Ok(params) => params,
        Err(fault) => return End::Case(CaseFault::Param(fault)),
    };
    let Ok(answer) = flash_tp(alloc, &params, job.tol, job.budget) else {
        return End::Memory;
    };
    match printed {
        Printed::Report => End::Flash(params, picked, job.tol, answer),
        Printed::Certificate => {
            // What the arrays of a head keep, for the clause that its certificate is accepted.
            head_is_sized(&head_of(&params, &answer));
            End::Cert(params, answer)
        }
    }
}
