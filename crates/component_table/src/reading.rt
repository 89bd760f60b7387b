//! The table, record by record.

ghost use Rattle.std.specs.Prelude.{◌≡◌, ◌≤◌, length, IfOk, IfErr, Ok};
ghost use Rattle.component_table.specs.CsvText.{records_of};
ghost use Rattle.component_table.specs.Tables.{table_of, Explains};
ghost use Rattle.component_table.specs.Views.{held_by};

use crate::draft::Draft;
use crate::faults::{TableError, TableFault};
use crate::tables::Table;
use csv::ReaderBuilder;
use std::alloc::Global;

/// The table of the bytes, or its first fault.
///
/// The records are those that csv gives for a text without a header, with any number of fields. They are taken in their
/// order. Over bytes the only error of csv is want of memory.
pub fn read_table(alloc: Global, bytes: &[u8]) -> Result<Table, TableError>
    requires { length bytes.now ≤ 4194304 }
    ensures table { IfOk result (λ t. table_of (records_of bytes.now) ≡ Ok (held_by t)) }
    ensures fault { IfErr result (λ e. Explains (table_of (records_of bytes.now)) e) }
{
    let reader = ReaderBuilder::new()
        .has_headers(false)
        .flexible(true)
        .from_reader(alloc, bytes);
    let mut draft = Draft::new(alloc);
    let mut n: u32 = 0;
    for record in reader.into_byte_records() {
        let Ok(record) = record else {
            return Err(TableError::Memory);
        };
        n += 1;
        if let Err(error) = draft.take(n, &record) {
            return Err(error);
        }
    }
    if n == 0 {
        return Err(TableError::Fault(TableFault::Fields(1)));
    }
    Ok(Table {
        comps: draft.comps,
        pairs: draft.pairs,
        cps: draft.cps,
    })
}
