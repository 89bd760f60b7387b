//! The heat capacities of the components of a case.

ghost use Rattle.std.specs.Prelude.{◌≡◌, ◌≤◌, Ok, Err, IfOk, IfErr, IsTrue, length, map};
ghost use Rattle.std.specs.List.{list_all};
ghost use Rattle.component_table.specs.Apart.{is_cp_row};
ghost use Rattle.component_table.specs.Capacities.{capacity_in, is_capacity, all_there};

use crate::cases::{CaseFault, Picked};
use crate::rows::CpRow;
use arrayvec::ArrayVec;
use case_types::SLOTS;

/// Nothing where each component of the case has a heat capacity, and else the first name without one, by its place in the job's
/// list.
pub fn need_cp(picked: &Picked) -> Result<(), CaseFault>
    ensures ok { IfOk result (λ u. all_there picked.now.live.items picked.now.cps.items ≡ Ok u) }
    ensures fault { IfErr result (λ e. all_there picked.now.live.items picked.now.cps.items ≡ Err e) }
{
    for k in 0..picked.cps.len() {
        if picked.cps[k].is_none() {
            return Err(CaseFault::NoCp(picked.live[k] + 1));
        }
    }
    Ok(())
}

/// The heat capacities of the components at these places.
pub fn capacities_of(cps: &[CpRow], places: &[u32]) -> ArrayVec<Option<[i32; 4]>, SLOTS>
    requires few { length places.now ≤ 4 }
    requires range { IsTrue (list_all is_cp_row cps.now) }
    ensures value { result.items ≡ map (capacity_in cps.now) places.now }
    ensures range { IsTrue (list_all is_capacity result.items) }
{
    let mut list = ArrayVec::new();
    for place in places {
        list.push(capacity(cps, *place));
    }
    list
}

/// The heat capacity of the component at a place, where the table has one.
fn capacity(cps: &[CpRow], place: u32) -> Option<[i32; 4]>
    ensures { result ≡ capacity_in cps.now place }
{
    for row in cps {
        if row.i == place {
            return Some(row.cp);
        }
    }
    None
}
