//! The fields of one record: numbers, names, and fields that must be empty.

ghost use Rattle.std.specs.Prelude.{◌≡◌, ◌≤◌, ◌^◌, ◌&&◌, nat_le, int_le, ◌≤ℤ◌, pos, neg_ℤ, unsigned_abs, IsTrue, IfOk};
ghost use Rattle.dec_text.specs.Decimals.{decimal_of, signed_decimal_of};
ghost use Rattle.case_words.specs.Answers.{Answers};
ghost use Rattle.case_words.specs.Names.{name_of, text_of};
ghost use Rattle.component_table.specs.Records.{ranged, valued, nothing_of};

use crate::faults::TableFault;
use case_types::Name;
use case_words::read_name;
use dec_text::{DecFault, read_dec, read_signed};

/// The largest size of a number that is read before its range is tested.
const MOST: u64 = 1_000_000_000_000_000;

/// The name in a field of a record.
pub fn take_name(n: u32, f: u8, text: &[u8]) -> Result<Name, TableFault>
    ensures { Answers text_of (valued n f (name_of text.now)) result }
{
    match read_name(text) {
        Ok(name) => Ok(name),
        Err(fault) => Err(TableFault::Number(n, f, fault)),
    }
}

/// The unsigned number in a field of a record, with these places, and then its range.
pub fn take_unsigned(
    n: u32,
    f: u8,
    places: u32,
    low: u32,
    high: u32,
    text: &[u8],
) -> Result<u32, TableFault>
    requires { places ≤ 4 }
    ensures { Answers (λ v. v) (ranged n f (λ v. nat_le low v && nat_le v high) (decimal_of places (10 ^ 15) text.now)) result }
{
    let v = match read_dec(text, places, MOST) {
        Ok(v) => v,
        Err(fault) => return Err(TableFault::Number(n, f, fault)),
    };
    if !is_in(low, high, v) {
        return Err(TableFault::Range(n, f));
    }
    Ok(v as u32)
}

/// The signed number in a field of a record, with these places, and then its range.
pub fn take_signed(
    n: u32,
    f: u8,
    places: u32,
    low: i32,
    high: i32,
    text: &[u8],
) -> Result<i32, TableFault>
    requires places { places ≤ 4 }
    requires low { neg_ℤ (pos 10000000) ≤ℤ low }
    requires high { high ≤ℤ pos 10000000 }
    ensures exact { Answers (λ v. v) (ranged n f (λ v. int_le low v && int_le v high) (signed_decimal_of places (10 ^ 15) text.now)) result }
    ensures small { IfOk result (λ v. unsigned_abs v ≤ 10000000) }
{
    let v = match read_signed(text, places, MOST) {
        Ok(v) => v,
        Err(fault) => return Err(TableFault::Number(n, f, fault)),
    };
    if !is_between(low, high, v) {
        return Err(TableFault::Range(n, f));
    }
    Ok(v as i32)
}

/// A field of a record that must be empty.
pub fn take_nothing(n: u32, f: u8, text: &[u8]) -> Result<(), TableFault>
    ensures { Answers (λ u. u) (valued n f (nothing_of text.now)) result }
{
    if text.is_empty() {
        Ok(())
    } else {
        Err(TableFault::Number(n, f, DecFault::Digit))
    }
}

/// The number is in the range.
fn is_in(low: u32, high: u32, v: u64) -> bool
    ensures exact { result ≡ (nat_le low v && nat_le v high) }
    ensures high { IsTrue result → v ≤ high }
{
    u64::from(low) <= v && v <= u64::from(high)
}

/// The signed number is in the range.
fn is_between(low: i32, high: i32, v: i64) -> bool
    ensures exact { result ≡ (int_le low v && int_le v high) }
    ensures low { IsTrue result → low ≤ℤ v }
    ensures high { IsTrue result → v ≤ℤ high }
{
    i64::from(low) <= v && v <= i64::from(high)
}
