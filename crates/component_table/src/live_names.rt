//! The live names of a job and their components.

ghost use Rattle.std.specs.Prelude.{◌≡◌, ◌≤◌, IfOk, length, map};
ghost use Rattle.std.specs.List.{sum};
ghost use Rattle.case_words.specs.Answers.{Answers};
ghost use Rattle.case_words.specs.Names.{text_of};
ghost use Rattle.component_table.specs.Rows.{plain_row};
ghost use Rattle.component_table.specs.Choosing.{chosen_of, IsLive};
ghost use Rattle.component_table.specs.Rising.{AreRisingBelow};
ghost use Rattle.component_table.specs.Chosens.{plain_chosen};

use crate::cases::CaseFault;
use crate::chosen::Chosen;
use crate::finding::index_of;
use case_types::Row;
use case_words::FlashWords;

/// The live names of a job and their components, or the first name that has none.
pub fn choose(comps: &[Row], job: &FlashWords) -> Result<Chosen, CaseFault>
    requires { length comps.now ≤ 256 }
    ensures exact { Answers plain_chosen (chosen_of (map plain_row comps.now) (map text_of job.now.names.items) job.now.z.items) result }
    ensures total { IfOk result (λ c. c.total ≡ sum job.now.z.items) }
    ensures live { IfOk result (λ c. IsLive (plain_chosen c) c.total) }
    ensures rising { IfOk result (λ c. AreRisingBelow (length job.now.names.items) c.live.items) }
{
    let names = job.names.as_slice();
    let parts = job.z.as_slice();
    let mut chosen = Chosen::new();
    for i in 0..names.len() {
        let index = index_of(comps, &names[i]);
        if index == comps.len() {
            return Err(CaseFault::NoName(i as u8 + 1));
        }
        chosen.take(i as u8, index as u32 + 1, parts[i]);
    }
    Ok(chosen)
}
