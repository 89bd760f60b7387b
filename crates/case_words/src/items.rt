//! Numbers and lists in the value of a word.

ghost use Rattle.std.specs.Prelude.{◌≡◌, ◌≤◌, ◌<◌, ◌==◌, ◌+◌, IsTrue, length, map, IfOk, slice_index_or, drop, []};
ghost use Rattle.std.specs.List.{position_or_len, list_any};
ghost use Rattle.std.specs.Str.{bytes_eq};
ghost use Rattle.case_words.specs.Answers.{Answers};
ghost use Rattle.case_words.specs.Names.{text_of, are_different};
ghost use Rattle.case_words.specs.Items.{number_of, is_within, items_of, quantity_of, width_of, edition_of, parts_of, names_of};

use crate::boundaries::By;
use crate::faults::WordFault;
use crate::names::{name_text, read_name};
use arrayvec::ArrayVec;
use case_types::{Edition, Name, SLOTS};
use dec_text::read_dec;

/// The largest number that is read before its range is tested.
const MOST: u64 = 1_000_000_000_000_000;

/// A number with these places in the word at a place, and then its range.
pub fn read_number(
    place: usize,
    places: u32,
    low: u32,
    high: u32,
    text: &[u8],
) -> Result<u32, WordFault>
    requires { places ≤ 4 }
    ensures exact { Answers (λ n. n) (number_of place places low high text.now) result }
    ensures high { IfOk result (λ n. n ≤ high) }
{
    let n = match read_dec(text, places, MOST) {
        Ok(n) => n,
        Err(fault) => return Err(WordFault::Value(place, fault)),
    };
    if !is_in(low, high, n) {
        return Err(WordFault::Range(place));
    }
    Ok(n as u32)
}

/// The number is in the range.
fn is_in(low: u32, high: u32, n: u64) -> bool
    ensures exact { result ≡ is_within low high n }
    ensures high { IsTrue result → n ≤ high }
{
    u64::from(low) <= n && n <= u64::from(high)
}

/// A temperature in mK or a pressure in Pa, in the word at a place.
pub fn read_quantity(place: usize, by: By, text: &[u8]) -> Result<u32, WordFault>
    ensures { Answers (λ n. n) (quantity_of place by text.now) result }
{
    read_number(place, by.places(), by.least(), by.greatest(), text)
}

/// A difference of temperatures in mK or of pressures in Pa, at least 1, in the word at a place.
pub fn read_width(place: usize, by: By, text: &[u8]) -> Result<u32, WordFault>
    ensures { Answers (λ n. n) (width_of place by text.now) result }
{
    read_number(place, by.places(), 1, u32::MAX, text)
}

/// The edition that a number without places in the word at a place names: 76 or 78.
pub fn read_edition(place: usize, text: &[u8]) -> Result<Edition, WordFault>
    ensures { Answers (λ edition. edition) (edition_of place text.now) result }
{
    let year = read_number(place, 0, 76, 78, text)?;
    if year == 76 {
        Ok(Edition::Y1976)
    } else if year == 78 {
        Ok(Edition::Y1978)
    } else {
        Err(WordFault::Range(place))
    }
}

/// The feed: at most four parts, and then the range of their total.
pub fn read_parts(place: usize, text: &[u8]) -> Result<ArrayVec<u32, SLOTS>, WordFault>
    ensures { Answers (λ parts. parts.items) (parts_of place text.now) result }
{
    let count = count_items(text);
    if count > SLOTS {
        return Err(WordFault::Count(place));
    }
    let mut parts = ArrayVec::new();
    let mut total: u32 = 0;
    for i in 0..count {
        let part = read_number(place, 0, 0, 1 << 20, item_at(text, i))?;
        parts.push(part);
        total += part;
    }
    if !is_in(1, 1 << 20, total.into()) {
        return Err(WordFault::Range(place));
    }
    Ok(parts)
}

/// At most four names, of which none stands twice.
pub fn read_names(place: usize, text: &[u8]) -> Result<ArrayVec<Name, SLOTS>, WordFault>
    ensures { Answers (λ names. map text_of names.items) (names_of place text.now) result }
{
    let count = count_items(text);
    if count > SLOTS {
        return Err(WordFault::Count(place));
    }
    let mut names = ArrayVec::new();
    for i in 0..count {
        let name = match read_name(item_at(text, i)) {
            Ok(name) => name,
            Err(fault) => return Err(WordFault::Value(place, fault)),
        };
        names.push(name);
    }
    if !differ(names.as_slice()) {
        return Err(WordFault::Twice(place));
    }
    Ok(names)
}

/// How many items stand between the commas.
fn count_items(text: &[u8]) -> usize
    ensures { result ≡ length (items_of text.now) }
{
    let mut count = 1;
    for b in text {
        if *b == b',' {
            count += 1;
        }
    }
    count
}

/// The item at an index.
fn item_at(text: &[u8], at: usize) -> &[u8]
    requires { at < length (items_of text.now) }
    ensures { result.now ≡ slice_index_or (items_of text.now) at [] }
{
    let mut rest = text;
    for _i in 0..at {
        rest = behind(rest, place_of(rest, b','));
    }
    &rest[..place_of(rest, b',')]
}

/// What stands behind a place.
pub fn behind(text: &[u8], place: usize) -> &[u8]
    requires { place < length text.now }
    ensures { result.now ≡ drop (place + 1) text.now }
{
    &text[place + 1..]
}

/// The first place of a byte, or the length where there is none.
pub fn place_of(text: &[u8], wanted: u8) -> usize
    ensures at { result ≡ position_or_len (λ b. b == wanted) text.now }
    ensures inside { result ≤ length text.now }
{
    for (i, b) in text.iter().enumerate() {
        if *b == wanted {
            return i;
        }
    }
    text.len()
}

/// No name stands twice.
fn differ(names: &[Name]) -> bool
    ensures { result ≡ are_different (map text_of names.now) }
{
    for i in 0..names.len() {
        if stands_after(names, i) {
            return false;
        }
    }
    true
}

/// The name at an index stands again behind it.
fn stands_after(names: &[Name], at: usize) -> bool
    requires { at < length names.now }
    ensures { result ≡ list_any (bytes_eq (slice_index_or (map text_of names.now) at [])) (drop (at + 1) (map text_of names.now)) }
{
    for j in at + 1..names.len() {
        if name_text(&names[at]) == name_text(&names[j]) {
            return true;
        }
    }
    false
}
