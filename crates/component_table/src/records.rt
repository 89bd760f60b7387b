//! One record of the table.

ghost use Rattle.std.specs.Prelude.{◌≡◌, ◌≤◌, ◌-◌};
ghost use Rattle.std.specs.List.{list_all};
ghost use Rattle.std.specs.Str.{is_utf8};
ghost use Rattle.csv.specs.Records.{fields_of};
ghost use Rattle.case_words.specs.Answers.{Answers};
ghost use Rattle.component_table.specs.Records.{field, record_of, comp_of, pair_of, cp_of};
ghost use Rattle.component_table.specs.Views.{plain_record};

use crate::faults::TableFault;
use crate::numbers::{take_name, take_nothing, take_signed, take_unsigned};
use case_types::{Name, Row};
use csv::ByteRecord;

/// What a record says.
pub enum Record {
    /// A component.
    Comp(Row),
    /// The interaction of two components.
    Pair(Name, Name, i32),
    /// The heat capacity of a component.
    Cp(Name, [i32; 4]),
}

/// What the record with this number says, or its first fault.
pub fn read_record(n: u32, fields: &ByteRecord) -> Result<Record, TableFault>
    ensures { Answers plain_record (record_of n (fields_of fields.now)) result }
{
    if fields.len() != 6 {
        return Err(TableFault::Fields(n));
    }
    if !is_text(fields) {
        return Err(TableFault::Utf8(n));
    }
    let kind = field_of(fields, 1);
    if kind == b"comp".as_slice() {
        read_comp(n, fields)
    } else if kind == b"k".as_slice() {
        read_pair(n, fields)
    } else if kind == b"cp".as_slice() {
        read_cp(n, fields)
    } else {
        Err(TableFault::Kind(n))
    }
}

/// A component.
fn read_comp(n: u32, fields: &ByteRecord) -> Result<Record, TableFault>
    ensures { Answers plain_record (comp_of n (fields_of fields.now)) result }
{
    let name = take_name(n, 2, field_of(fields, 2))?;
    let tc = take_unsigned(n, 3, 3, 5_000, 1_500_000, field_of(fields, 3))?;
    let pc = take_unsigned(n, 4, 0, 100_000, 50_000_000, field_of(fields, 4))?;
    let w = take_signed(n, 5, 4, -5_000, 15_000, field_of(fields, 5))?;
    take_nothing(n, 6, field_of(fields, 6))?;
    Ok(Record::Comp(Row { name, tc, pc, w }))
}

/// The interaction of two components.
fn read_pair(n: u32, fields: &ByteRecord) -> Result<Record, TableFault>
    ensures { Answers plain_record (pair_of n (fields_of fields.now)) result }
{
    let first = take_name(n, 2, field_of(fields, 2))?;
    let second = take_name(n, 3, field_of(fields, 3))?;
    let k = take_signed(n, 4, 4, -5_000, 5_000, field_of(fields, 4))?;
    take_nothing(n, 5, field_of(fields, 5))?;
    take_nothing(n, 6, field_of(fields, 6))?;
    Ok(Record::Pair(first, second, k))
}

/// The heat capacity of a component.
fn read_cp(n: u32, fields: &ByteRecord) -> Result<Record, TableFault>
    ensures { Answers plain_record (cp_of n (fields_of fields.now)) result }
{
    let name = take_name(n, 2, field_of(fields, 2))?;
    let a = take_signed(n, 3, 3, -10_000_000, 10_000_000, field_of(fields, 3))?;
    let b = take_signed(n, 4, 3, -10_000_000, 10_000_000, field_of(fields, 4))?;
    let c = take_signed(n, 5, 3, -10_000_000, 10_000_000, field_of(fields, 5))?;
    let d = take_signed(n, 6, 3, -10_000_000, 10_000_000, field_of(fields, 6))?;
    Ok(Record::Cp(name, [a, b, c, d]))
}

/// The field at a place from 1, without a byte where there is none.
fn field_of(fields: &ByteRecord, f: usize) -> &[u8]
    requires { 1 ≤ f }
    ensures { result.now ≡ field f (fields_of fields.now) }
{
    match fields.get(f - 1) {
        Some(text) => text,
        None => &[],
    }
}

/// Each field is UTF-8.
fn is_text(fields: &ByteRecord) -> bool
    ensures { result ≡ list_all is_utf8 (fields_of fields.now) }
{
    for f in 0..fields.len() {
        match str::from_utf8(field_of(fields, f + 1)) {
            Ok(_) => {}
            Err(_) => return false,
        }
    }
    true
}
