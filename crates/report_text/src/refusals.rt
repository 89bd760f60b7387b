//! The text of a refusal.

ghost use Rattle.std.specs.Prelude.{◌≡◌, ◌++◌, OnOk, codes};
ghost use Rattle.dec_text.specs.Appending.{Adds};
ghost use Rattle.report_text.specs.RefusalText.{number_fault_text, word_fault_text, table_fault_text, range_fault_text, case_fault_text};

use case_types::ParamFault;
use case_words::WordFault;
use component_table::{CaseFault, TableFault};
use dec_text::{DecFault, put_number, put_text};
use itoa::Integer;
use std::alloc::AllocError;

/// Appends what is wrong with the words.
pub fn put_word_fault(out: &mut Vec<u8>, fault: WordFault) -> Result<(), AllocError>
    ensures { OnOk result (Adds out.old.items out.new.items (word_fault_text fault)) }
{
    match fault {
        WordFault::NoCommand => put_text(out, "NoCommand"),
        WordFault::Unknown(word) => put_placed(out, "Unknown", word),
        WordFault::Twice(word) => put_placed(out, "Twice", word),
        WordFault::Value(word, fault) => {
            put_placed(out, "Value", word)?;
            put_text(out, " ")?;
            put_text(out, name_of(fault))
        }
        WordFault::Range(word) => put_placed(out, "Range", word),
        WordFault::Count(word) => put_placed(out, "Count", word),
        WordFault::Missing(key) => {
            put_text(out, "Missing ")?;
            put_text(out, key.text())
        }
    }
}

/// Appends what is wrong with the table.
pub fn put_table_fault(out: &mut Vec<u8>, fault: TableFault) -> Result<(), AllocError>
    ensures { OnOk result (Adds out.old.items out.new.items (table_fault_text fault)) }
{
    match fault {
        TableFault::Fields(record) => put_placed(out, "Fields", record),
        TableFault::Utf8(record) => put_placed(out, "Utf8", record),
        TableFault::Kind(record) => put_placed(out, "Kind", record),
        TableFault::Number(record, field, fault) => {
            put_placed_twice(out, "Number", record, field)?;
            put_text(out, " ")?;
            put_text(out, name_of(fault))
        }
        TableFault::Range(record, field) => put_placed_twice(out, "Range", record, field),
        TableFault::UnknownName(record) => put_placed(out, "UnknownName", record),
        TableFault::Twice(record) => put_placed(out, "Twice", record),
        TableFault::TooMany(record) => put_placed(out, "TooMany", record),
    }
}

/// Appends what is wrong with the case.
pub fn put_case_fault(out: &mut Vec<u8>, fault: CaseFault) -> Result<(), AllocError>
    ensures { OnOk result (Adds out.old.items out.new.items (case_fault_text fault)) }
{
    match fault {
        CaseFault::NoName(name) => put_placed(out, "NoName", name),
        CaseFault::NoCp(name) => put_placed(out, "NoCp", name),
        CaseFault::Param(fault) => put_range_fault(out, fault),
    }
}

/// Appends the range that is broken.
pub fn put_range_fault(out: &mut Vec<u8>, fault: ParamFault) -> Result<(), AllocError>
    ensures { OnOk result (Adds out.old.items out.new.items (range_fault_text fault)) }
{
    match fault {
        ParamFault::BRange => put_text(out, "BRange"),
        ParamFault::BRatio => put_text(out, "BRatio"),
        ParamFault::MRange(i) => put_placed(out, "MRange", i),
        ParamFault::ARange(i, j) => put_placed_twice(out, "ARange", i, j),
    }
}

/// What is wrong with a number or a name.
fn name_of(fault: DecFault) -> &'static str
    ensures { result.now ≡ number_fault_text fault }
{
    match fault {
        DecFault::Empty => "Empty",
        DecFault::Sign => "Sign",
        DecFault::Digit => "Digit",
        DecFault::Places => "Places",
        DecFault::TooLarge => "TooLarge",
    }
}

/// Appends a fault and its place.
pub fn put_placed<I: Integer>(out: &mut Vec<u8>, fault: &str, place: I) -> Result<(), AllocError>
    ensures { OnOk result (Adds out.old.items out.new.items (fault.now ++ codes " " ++ I.text place)) }
{
    put_text(out, fault)?;
    put_text(out, " ")?;
    put_number(out, place)
}

/// Appends a fault and its two places.
fn put_placed_twice<I: Integer, J: Integer>(
    out: &mut Vec<u8>,
    fault: &str,
    first: I,
    second: J,
) -> Result<(), AllocError>
    ensures { OnOk result (Adds out.old.items out.new.items (fault.now ++ codes " " ++ I.text first ++ codes " " ++ J.text second)) }
{
    put_placed(out, fault, first)?;
    put_text(out, " ")?;
    put_number(out, second)
}
