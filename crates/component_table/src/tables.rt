//! What a table holds.

ghost use Rattle.std.specs.Prelude.{◌≤◌, IsTrue, length, map};
ghost use Rattle.std.specs.List.{list_all};
ghost use Rattle.component_table.specs.Rows.{plain_row, is_row, is_pair_row};
ghost use Rattle.component_table.specs.Apart.{are_apart, is_named, is_namesake, is_between, is_same_pair, is_cp_of, is_cp_row, is_same_cp};

use crate::rows::{CpRow, PairRow};
use case_types::Row;

/// The components, interactions and heat capacities of a table, each in the order of the records. All numbers are in their
/// ranges. The names of components have 1 to 16 bytes and differ. An interaction is of two components, a heat capacity of one, and each
/// stands once.
#[derive(Drop)]
pub struct Table {
    pub comps: Vec<Row>,
    pub pairs: Vec<PairRow>,
    pub cps: Vec<CpRow>,
    pub ghost few: { length comps.items ≤ 256 },
    pub ghost rows: { IsTrue (list_all is_row (map plain_row comps.items)) },
    pub ghost named: { IsTrue (list_all is_named (map plain_row comps.items)) },
    pub ghost names: { IsTrue (are_apart is_namesake (map plain_row comps.items)) },
    pub ghost interactions: { IsTrue (list_all is_pair_row pairs.items) },
    pub ghost pair_places: { IsTrue (list_all (is_between (length comps.items)) pairs.items) },
    pub ghost once: { IsTrue (are_apart is_same_pair pairs.items) },
    pub ghost coefficients: { IsTrue (list_all is_cp_row cps.items) },
    pub ghost cp_places: { IsTrue (list_all (is_cp_of (length comps.items)) cps.items) },
    pub ghost cp_once: { IsTrue (are_apart is_same_cp cps.items) },
}
