//! What may be wrong with a table.

use dec_text::DecFault;

/// The first fault of a table. The first number is that of a record, from 1, the second that of a field, from 1.
#[derive(Clone, Copy, Debug, PartialEq, Eq)]
pub enum TableFault {
    /// The record hasn't six fields, or the table has no record.
    Fields(u32),
    /// A field of the record isn't UTF-8.
    Utf8(u32),
    /// The first field of the record is none of `comp`, `k` and `cp`.
    Kind(u32),
    /// The field isn't its number or its name, or isn't empty where it must be.
    Number(u32, u8, DecFault),
    /// The number is outside its range.
    Range(u32, u8),
    /// The record names no earlier component.
    UnknownName(u32),
    /// The component, the pair in either order, or the heat capacity of the component stands already, or a pair names one
    /// component twice.
    Twice(u32),
    /// The record is the 257th component.
    TooMany(u32),
}

/// Why there is no table.
#[derive(Clone, Copy, Debug, PartialEq, Eq)]
pub enum TableError {
    /// A rule of the table is broken.
    Fault(TableFault),
    /// There is no memory for it.
    Memory,
}
