//! Where something stands among what was read.

ghost use Rattle.std.specs.Prelude.{◌≡◌, ◌≤◌, length, map};
ghost use Rattle.std.specs.List.{position_or_len, list_any};
ghost use Rattle.case_words.specs.Answers.{Answers};
ghost use Rattle.case_words.specs.Names.{text_of};
ghost use Rattle.component_table.specs.Tables.{has_name, known, is_pair, is_of};
ghost use Rattle.component_table.specs.Rows.{plain_row};

use crate::faults::TableFault;
use crate::rows::{CpRow, PairRow};
use case_types::{Name, Row};
use case_words::name_text;

/// The index of the component with a name, or their number where there is none.
pub fn index_of(comps: &[Row], name: &Name) -> usize
    ensures at { result ≡ position_or_len (has_name (text_of name.now)) (map plain_row comps.now) }
    ensures inside { result ≤ length comps.now }
{
    for i in 0..comps.len() {
        if name_text(&comps[i].name) == name_text(name) {
            return i;
        }
    }
    comps.len()
}

/// The place of the component with a name, from 1, for the record with this number.
pub fn place_of(n: u32, comps: &[Row], name: &Name) -> Result<u32, TableFault>
    requires { length comps.now ≤ 256 }
    ensures { Answers (λ i. i) (known n (map plain_row comps.now) (text_of name.now)) result }
{
    let index = index_of(comps, name);
    if index == comps.len() {
        return Err(TableFault::UnknownName(n));
    }
    Ok(index as u32 + 1)
}

/// The pair stands already, in either order.
pub fn has_pair(pairs: &[PairRow], i: u32, j: u32) -> bool
    ensures { result ≡ list_any (is_pair i j) pairs.now }
{
    pairs
        .iter()
        .any(|p| p.i == i && p.j == j || p.i == j && p.j == i)
}

/// The heat capacity of the component stands already.
pub fn has_cp(cps: &[CpRow], i: u32) -> bool
    ensures { result ≡ list_any (is_of i) cps.now }
{
    cps.iter().any(|c| c.i == i)
}
