//! A line of the head.

ghost use Rattle.std.specs.Prelude.{◌≡◌, ◌≤◌, length, Option, Some, None, []};
ghost use Rattle.std.specs.Option.{option_map};
ghost use Rattle.std.specs.List.{position_or_len};
ghost use Rattle.case_words.specs.Names.{text_of};
ghost use Rattle.cert_lines.specs.Lines.{is_in, is_space, field_end, field_at, number_at, numbers_at, name_at, behind_word, line_at, said_by};

use arrayvec::ArrayVec;
use case_types::Name;
use case_words::read_name;
use dec_text::read_whole;

/// The numbers from `low` to `high`.
#[derive(Clone, Copy, Debug, PartialEq, Eq)]
pub struct Range {
    pub low: i128,
    pub high: i128,
}

impl Default for Range {
    /// No number but 0.
    fn default() -> Range {
        Range { low: 0, high: 0 }
    }
}

/// What a line says behind its word.
#[derive(Drop)]
pub struct Entry {
    /// Without a byte on the lines that have no name.
    pub name: Name,
    pub numbers: ArrayVec<i128, 5>,
}

impl Default for Entry {
    /// Nothing but the word.
    fn default() -> Entry {
        Entry {
            name: no_name(),
            numbers: ArrayVec::new(),
        }
    }
}

/// What the line says behind this word: a name where one is wanted, and then a number in each range. None where the line is anything else.
#[tactic(auto, unfolding(crate::specs::Lines::line_at))]
pub fn read_line(word: &[u8], named: bool, ranges: &[Range], line: &[u8]) -> Option<Entry>
    requires { length ranges.now ≤ 5 }
    ensures { option_map said_by result ≡ line_at word.now named ranges.now line.now }
{
    let rest = past_word(word, line)?;
    let (name, rest) = take_name(named, rest)?;
    let (numbers, rest) = take_numbers(ranges, rest)?;
    if !rest.is_empty() {
        return None;
    }
    Some(Entry { name, numbers })
}

/// What follows the word.
#[tactic(auto, unfolding(crate::specs::Lines::behind_word))]
fn past_word<'a>(word: &[u8], text: &'a [u8]) -> Option<&'a [u8]>
    ensures { option_map (λ rest. rest.now) result ≡ behind_word word.now text.now }
{
    text.strip_prefix(word)
}

/// The name, where one is wanted, and what follows it.
#[tactic(auto, unfolding(crate::specs::Lines::name_at))]
fn take_name(named: bool, text: &[u8]) -> Option<(Name, &[u8])>
    ensures { option_map (λ x. (text_of x.0, x.1.now)) result ≡ name_at named text.now }
{
    if !named {
        return Some((no_name(), text));
    }
    let (field, rest) = take_field(text)?;
    match read_name(field) {
        Ok(name) => Some((name, rest)),
        Err(_) => None,
    }
}

/// A name without a byte.
pub fn no_name() -> Name
    ensures { text_of result ≡ [] }
{
    Name {
        len: 0,
        bytes: [0; 16],
    }
}

/// A number in each range, and what follows them.
fn take_numbers<'a>(ranges: &[Range], text: &'a [u8]) -> Option<(ArrayVec<i128, 5>, &'a [u8])>
    requires { length ranges.now ≤ 5 }
    ensures { option_map (λ x. (x.0.items, x.1.now)) result ≡ numbers_at ranges.now text.now }
{
    let mut numbers = ArrayVec::new();
    let mut rest = text;
    for range in ranges {
        let (z, after) = take_number(*range, rest)?;
        numbers.push(z);
        rest = after;
    }
    Some((numbers, rest))
}

/// A number in the range, and what follows it.
#[tactic(auto, unfolding(crate::specs::Lines::number_at))]
fn take_number(range: Range, text: &[u8]) -> Option<(i128, &[u8])>
    ensures { option_map (λ x. (x.0, x.1.now)) result ≡ number_at range text.now }
{
    let (field, rest) = take_field(text)?;
    match read_whole(field) {
        Ok(z) if holds(range, z) => Some((z, rest)),
        _ => None,
    }
}

/// The number is in the range.
fn holds(range: Range, z: i128) -> bool
    ensures { result ≡ is_in range z }
{
    range.low <= z && z <= range.high
}

/// The field behind the space at the front, and what follows it.
#[tactic(auto, unfolding(crate::specs::Lines::field_at))]
fn take_field(text: &[u8]) -> Option<(&[u8], &[u8])>
    ensures { option_map (λ x. (x.0.now, x.1.now)) result ≡ field_at text.now }
{
    if text.is_empty() || text[0] != b' ' {
        return None;
    }
    let text = &text[1..];
    let end = end_of_field(text);
    Some((&text[..end], &text[end..]))
}

/// How long the field at the front is.
fn end_of_field(text: &[u8]) -> usize
    ensures end { result ≡ field_end text.now }
    ensures inside { result ≤ length text.now }
{
    for (i, b) in text.iter().enumerate() {
        if *b == b' ' {
            return i;
        }
    }
    text.len()
}
