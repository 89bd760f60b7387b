//! The case of a table and a job.

ghost use Rattle.std.specs.Prelude.{◌≡◌, ◌≤◌, IsTrue, IfOk, IfErr, map, length, slice_index, unsigned_abs};
ghost use Rattle.std.specs.List.{list_all};
ghost use Rattle.case_words.specs.Views.{asked_by};
ghost use Rattle.component_table.specs.Tables.{is_pair};
ghost use Rattle.component_table.specs.Views.{held_by};
ghost use Rattle.component_table.specs.Rows.{plain_row, is_pair_row};
ghost use Rattle.component_table.specs.Choosing.{four, row_in, interaction_of};
ghost use Rattle.component_table.specs.Picking.{Picks, Refuses};

use crate::capacities::capacities_of;
use crate::cases::{CaseFault, Picked};
use crate::live_names::choose;
use crate::rows::PairRow;
use crate::tables::Table;
use arrayvec::ArrayVec;
use case_types::{Case, Name, Row, SLOTS};
use case_words::FlashWords;

/// The case that a job names in a table, or the first name of the job that has no component.
///
/// The components are those with a part of the feed, in the order of the names.
pub fn pick(table: &Table, job: &FlashWords) -> Result<Picked, CaseFault>
    ensures picked { IfOk result (λ p. Picks (held_by table.now) (asked_by job.now) p) }
    ensures fault { IfErr result (λ e. Refuses (held_by table.now) (asked_by job.now) e) }
{
    let chosen = match choose(&table.comps, job) {
        Ok(chosen) => chosen,
        Err(fault) => return Err(fault),
    };
    let places = four_of(chosen.places.as_slice());
    Ok(Picked {
        case: Case {
            n: chosen.live.len() as u8,
            rows: rows_of(&table.comps, &places),
            k: interactions_of(&table.pairs, &places),
            z: four_of(chosen.parts.as_slice()),
            total: chosen.total,
            t: job.t,
            p: job.p,
            edition: job.edition,
        },
        names: copy_of(job.names.as_slice()),
        cps: capacities_of(&table.cps, chosen.places.as_slice()),
        live: chosen.live,
    })
}

/// A copy of a list of names.
fn copy_of(names: &[Name]) -> ArrayVec<Name, SLOTS>
    requires { length names.now ≤ 4 }
    ensures { result.items ≡ names.now }
{
    let mut copy = ArrayVec::new();
    for name in names {
        copy.push(*name);
    }
    copy
}

/// The first four of these numbers, filled with zeros.
fn four_of(numbers: &[u32]) -> [u32; SLOTS]
    ensures { result ≡ four (slice_index numbers.now) }
{
    [
        number_or_zero(numbers, 0),
        number_or_zero(numbers, 1),
        number_or_zero(numbers, 2),
        number_or_zero(numbers, 3),
    ]
}

/// The number at an index, or 0 past the end.
fn number_or_zero(numbers: &[u32], at: usize) -> u32
    ensures { result ≡ slice_index numbers.now at }
{
    if at < numbers.len() { numbers[at] } else { 0 }
}

/// The components at four places.
fn rows_of(comps: &[Row], places: &[u32; SLOTS]) -> [Row; SLOTS]
    ensures { map plain_row result ≡ four (λ i. row_in (map plain_row comps.now) (slice_index places.now i)) }
{
    [
        row_of(comps, places[0]),
        row_of(comps, places[1]),
        row_of(comps, places[2]),
        row_of(comps, places[3]),
    ]
}

/// The component at a place from 1, or one without a name.
fn row_of(comps: &[Row], place: u32) -> Row
    ensures { plain_row result ≡ row_in (map plain_row comps.now) place }
{
    if place > 0 && place as usize <= comps.len() {
        comps[place as usize - 1]
    } else {
        Row {
            name: Name {
                len: 0,
                bytes: [0; 16],
            },
            tc: 5_000,
            pc: 100_000,
            w: 0,
        }
    }
}

/// The interactions of four places with each other.
fn interactions_of(pairs: &[PairRow], places: &[u32; SLOTS]) -> [[i32; SLOTS]; SLOTS]
    requires { IsTrue (list_all is_pair_row pairs.now) }
    ensures { result ≡ four (λ i. four (λ j. interaction_of pairs.now (slice_index places.now i) (slice_index places.now j))) }
{
    [
        interactions_with(pairs, places[0], places),
        interactions_with(pairs, places[1], places),
        interactions_with(pairs, places[2], places),
        interactions_with(pairs, places[3], places),
    ]
}

/// The interactions of a place with four places.
fn interactions_with(pairs: &[PairRow], i: u32, places: &[u32; SLOTS]) -> [i32; SLOTS]
    requires { IsTrue (list_all is_pair_row pairs.now) }
    ensures { result ≡ four (λ j. interaction_of pairs.now i (slice_index places.now j)) }
{
    [
        interaction(pairs, i, places[0]),
        interaction(pairs, i, places[1]),
        interaction(pairs, i, places[2]),
        interaction(pairs, i, places[3]),
    ]
}

/// The interaction of two places: 0 of a place with itself, and where there is no record.
fn interaction(pairs: &[PairRow], i: u32, j: u32) -> i32
    requires { IsTrue (list_all is_pair_row pairs.now) }
    ensures exact { result ≡ interaction_of pairs.now i j }
    ensures small { unsigned_abs result ≤ 10000000 }
{
    if i == j {
        return 0;
    }
    for p in pairs {
        if is_of_both(p, i, j) {
            return p.k;
        }
    }
    0
}

/// The record is that of these two places, in either order.
fn is_of_both(p: &PairRow, i: u32, j: u32) -> bool
    ensures { result ≡ is_pair i j p.now }
{
    p.i == i && p.j == j || p.i == j && p.j == i
}
