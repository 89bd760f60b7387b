//! A search for a phase boundary, over the case that was picked.

ghost use Rattle.std.specs.Prelude.{ℕ, List};
ghost use Rattle.case_words.specs.Jobs.{PlainEdge};
ghost use Rattle.case_words.specs.Views.{asked_by, edge_asked_by};
ghost use Rattle.flash_run.specs.Ends.{IsWorked};
ghost use Rattle.flash_run.specs.Headline.{IsCase};

use case_words::EdgeWords;
use component_table::Picked;
use edge_flash::edge;
use plane_rounds::PrFlash;
use report_text::End;
use std::alloc::Global;

/// The answer of the search, by flashes and walks over one phase of the case that was picked.
pub fn searched(alloc: Global, job: &EdgeWords, picked: &Picked) -> End
    ensures { (bytes : List ℕ) → IsCase (asked_by job.now.base) bytes picked.now → IsWorked (PlainEdge (edge_asked_by job.now)) (asked_by job.now.base) bytes result }
{
    let mut flash = PrFlash { alloc };
    match edge(&mut flash, &picked.case, job) {
        Ok(answer) => End::Edge(job.by, answer),
        Err(_) => End::Memory,
    }
}
