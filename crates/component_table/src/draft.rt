//! What the records have given so far.

use crate::faults::{TableError, TableFault};
use crate::finding::{has_cp, has_pair, index_of, place_of};
use crate::records::{Record, read_record};
use crate::rows::{CpRow, PairRow};
use case_types::{Name, Row};
use csv::ByteRecord;
use std::alloc::Global;

/// The most components of a table.
const MOST: usize = 256;

/// The lists of the records that were read.
#[derive(Drop)]
pub struct Draft {
    pub comps: Vec<Row>,
    pub pairs: Vec<PairRow>,
    pub cps: Vec<CpRow>,
}

impl Draft {
    ghost use Rattle.std.specs.Prelude.{◌≡◌, ◌≤◌, length, IfOk, IfErr, [], Ok};
    ghost use Rattle.csv.specs.Records.{fields_of};
    ghost use Rattle.case_words.specs.Names.{text_of};
    ghost use Rattle.component_table.specs.Tables.{with_fields, with_comp, with_pair, with_cp, Explains};
    ghost use Rattle.component_table.specs.Rows.{plain_row};
    ghost use Rattle.component_table.specs.Views.{drafted};

    /// Nothing yet.
    pub fn new(alloc: Global) -> Draft
        ensures comps { result.comps.items ≡ [] }
        ensures pairs { result.pairs.items ≡ [] }
        ensures cps { result.cps.items ≡ [] }
    {
        Draft {
            comps: Vec::new(alloc),
            pairs: Vec::new(alloc),
            cps: Vec::new(alloc),
        }
    }

    /// Takes the record with this number. After a fault nothing is said of what was given.
    pub fn take(&mut self, n: u32, fields: &ByteRecord) -> Result<(), TableError>
        requires { length self.old.comps.items ≤ 256 }
        ensures taken { IfOk result (λ u. with_fields n (drafted self.old) (fields_of fields.now) ≡ Ok (drafted self.new)) }
        ensures few { IfOk result (λ u. length self.new.comps.items ≤ 256) }
        ensures fault { IfErr result (λ e. Explains (with_fields n (drafted self.old) (fields_of fields.now)) e) }
    {
        match read_record(n, fields) {
            Ok(Record::Comp(row)) => self.take_comp(n, row),
            Ok(Record::Pair(first, second, k)) => self.take_pair(n, &first, &second, k),
            Ok(Record::Cp(name, cp)) => self.take_cp(n, &name, cp),
            Err(fault) => Err(TableError::Fault(fault)),
        }
    }

    /// Takes a component.
    fn take_comp(&mut self, n: u32, row: Row) -> Result<(), TableError>
        requires { length self.old.comps.items ≤ 256 }
        ensures taken { IfOk result (λ u. with_comp n (drafted self.old) (plain_row row) ≡ Ok (drafted self.new)) }
        ensures few { IfOk result (λ u. length self.new.comps.items ≤ 256) }
        ensures fault { IfErr result (λ e. Explains (with_comp n (drafted self.old) (plain_row row)) e) }
    {
        if index_of(&self.comps, &row.name) < self.comps.len() {
            return Err(TableError::Fault(TableFault::Twice(n)));
        }
        if self.comps.len() >= MOST {
            return Err(TableError::Fault(TableFault::TooMany(n)));
        }
        if self.comps.push(row).is_err() {
            return Err(TableError::Memory);
        }
        Ok(())
    }

    /// Takes the interaction of two components.
    fn take_pair(&mut self, n: u32, first: &Name, second: &Name, k: i32) -> Result<(), TableError>
        requires { length self.old.comps.items ≤ 256 }
        ensures taken { IfOk result (λ u. with_pair n (drafted self.old) (text_of first.now) (text_of second.now) k ≡ Ok (drafted self.new)) }
        ensures few { IfOk result (λ u. length self.new.comps.items ≤ 256) }
        ensures fault { IfErr result (λ e. Explains (with_pair n (drafted self.old) (text_of first.now) (text_of second.now) k) e) }
    {
        let i = match place_of(n, &self.comps, first) {
            Ok(i) => i,
            Err(fault) => return Err(TableError::Fault(fault)),
        };
        let j = match place_of(n, &self.comps, second) {
            Ok(j) => j,
            Err(fault) => return Err(TableError::Fault(fault)),
        };
        if i == j || has_pair(&self.pairs, i, j) {
            return Err(TableError::Fault(TableFault::Twice(n)));
        }
        if self.pairs.push(PairRow { i, j, k }).is_err() {
            return Err(TableError::Memory);
        }
        Ok(())
    }

    /// Takes the heat capacity of a component.
    fn take_cp(&mut self, n: u32, name: &Name, cp: [i32; 4]) -> Result<(), TableError>
        requires { length self.old.comps.items ≤ 256 }
        ensures taken { IfOk result (λ u. with_cp n (drafted self.old) (text_of name.now) cp ≡ Ok (drafted self.new)) }
        ensures few { IfOk result (λ u. length self.new.comps.items ≤ 256) }
        ensures fault { IfErr result (λ e. Explains (with_cp n (drafted self.old) (text_of name.now) cp) e) }
    {
        let i = match place_of(n, &self.comps, name) {
            Ok(i) => i,
            Err(fault) => return Err(TableError::Fault(fault)),
        };
        if has_cp(&self.cps, i) {
            return Err(TableError::Fault(TableFault::Twice(n)));
        }
        if self.cps.push(CpRow { i, cp }).is_err() {
            return Err(TableError::Memory);
        }
        Ok(())
    }
}
