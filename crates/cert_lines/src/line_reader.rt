//! The head of a certificate, read line by line.

ghost use Rattle.std.specs.Prelude.{◌≡◌, ◌≤◌, ◌<◌, ◌+◌, ◌==◌, ◌&&◌, [], length, map, Option, Some, None, IsSome, IfSome, IsTrue, IsFalse, ◌↔◌, pos, ℤ, ◌≤ℤ◌, int_le, int_lt};
ghost use Rattle.std.specs.Option.{option_map};
ghost use Rattle.std.specs.List.{list_any, slice_get};
ghost use Rattle.std.specs.Str.{bytes_eq};
ghost use Rattle.case_words.specs.Names.{text_of};
ghost use Rattle.cert_lines.specs.Lines.{Said, said_by};
ghost use Rattle.cert_lines.specs.Indices.{index_of, said_on, number_on};
ghost use Rattle.cert_lines.specs.Heads.{blank, number_in, up_to, reshaped, part_in, suits, next_place, said_at, suiting, with_line, Steps, has_part, is_new, count_of, letters_of};

use crate::faults::CertFault;
use crate::forms::{is_named, ranges_of, word_of};
use crate::indices::index_of;
use crate::lines::{Entry, no_name, read_line};
use crate::places::{Place, Shape, place_at};
use arrayvec::ArrayVec;
use case_types::Name;
use case_words::name_text;
use std::marker::Model;

/// What a line of a head leads to.
#[derive(Clone, Copy, Debug, PartialEq, Eq)]
pub enum LineStep {
    /// Further lines are wanted.
    More,
    /// The head is whole.
    Done,
    /// This line can't stand here, for this fault.
    Bad(CertFault),
}

/// Reads a head, line by line, and keeps what each line says.
#[derive(Drop)]
pub struct LineReader {
    shape: Shape,
    /// The parts of the feed so far.
    fed: u32,
    entries: ArrayVec<Entry, 37>,
}

impl Model for LineReader {
    ghost use Rattle.std.specs.Prelude.{◌≤◌, map};
    ghost use Rattle.cert_lines.specs.Heads.{Draft};
    ghost use Rattle.cert_lines.specs.Lines.{said_by};

    ghost Value = { Draft };

    ghost view = { λ s. record { shape = s.shape; fed = s.fed; said = map said_by s.entries.items } };

    ghost invariant = { λ s. (s.shape.n ≤ 4) × (s.shape.phases ≤ 4) × (s.shape.letters ≤ 60000000) × (s.fed ≤ 1048576) };
}

impl LineReader {
    /// Before the first line.
    pub fn new() -> LineReader
        ensures { result ≡ blank }
    {
        LineReader {
            shape: Shape {
                version: 0,
                n: 0,
                phases: 0,
                letters: 0,
            },
            fed: 0,
            entries: ArrayVec::new(),
        }
    }

    /// Takes the next line, without its newline. A line that can't stand leaves the reader as it was: its fault is `Head` for
    /// the first line, and else `Line` with its number, from 1.
    pub fn line(&mut self, line: &[u8]) -> LineStep
        requires { IsSome (next_place self.old) }
        ensures { Steps self.old line.now self.new result }
    {
        if self.take(line) {
            if self.is_whole() {
                LineStep::Done
            } else {
                LineStep::More
            }
        } else if self.entries.is_empty() {
            LineStep::Bad(CertFault::Head)
        } else {
            LineStep::Bad(CertFault::Line(self.entries.len() as u32 + 1))
        }
    }

    /// What the lines said that were read, in their order.
    pub fn entries(&self) -> &[Entry]
        ensures { map said_by result.now ≡ self.now.said }
    {
        self.entries.as_slice()
    }

    /// A number of a line, from 0, or 0 where there is none.
    pub fn number(&self, place: Place, at: usize) -> i128
        ensures { result ≡ number_on self.now place at }
    {
        match self.entry(place) {
            Some(entry) => number_in(entry, at),
            None => 0,
        }
    }

    /// The name on a line, without a byte where there is none.
    pub fn name(&self, place: Place) -> Name
        ensures { text_of result ≡ (said_on self.now place).name }
    {
        match self.entry(place) {
            Some(entry) => entry.name,
            None => no_name(),
        }
    }

    /// What a line said.
    fn entry(&self, place: Place) -> Option<&Entry>
        ensures { option_map (λ e. said_by e.now) result ≡ slice_get self.now.said (index_of self.now.shape place) }
    {
        self.entries.get(index_of(self.shape, place) as usize)
    }

    /// The numbers of lines of each kind.
    pub fn shape(&self) -> Shape
        ensures value { result ≡ self.now.shape }
        ensures n { result.n ≤ 4 }
        ensures phases { result.phases ≤ 4 }
    {
        self.shape
    }

    /// The number of components, or 1 before its line was read.
    pub fn components(&self) -> u8
        ensures value { result ≡ count_of self.now }
        ensures one { 1 ≤ result }
        ensures four { result ≤ 4 }
    {
        if self.shape.n == 0 { 1 } else { self.shape.n }
    }

    /// The stated number of letters, or 1 before its line was read.
    pub fn letters(&self) -> u32
        ensures value { result ≡ letters_of self.now }
        ensures some { 1 ≤ result }
        ensures few { result ≤ 60000000 }
    {
        if self.shape.letters == 0 {
            1
        } else {
            self.shape.letters
        }
    }

    /// How many lines were read.
    pub fn lines(&self) -> u32
        ensures value { result ≡ length self.now.said }
        ensures few { result ≤ 37 }
    {
        self.entries.len() as u32
    }

    /// Whether the last line was read.
    fn is_whole(&self) -> bool
        ensures { IsTrue result ↔ (next_place self.now ≡ None) }
    {
        place_at(self.shape, self.entries.len() as u32).is_none()
    }

    /// Takes the line, if it can stand here.
    #[tactic(auto, unfolding(crate::specs::Heads::with_line))]
    fn take(&mut self, line: &[u8]) -> bool
        ensures taken { IsTrue result → with_line self.old line.now ≡ Some self.new }
        ensures refused { IsFalse result → with_line self.old line.now ≡ None }
        ensures kept { IsFalse result → self.new ≡ self.old }
    {
        let Some(place) = place_at(self.shape, self.entries.len() as u32) else {
            return false;
        };
        let ranges = ranges_of(self.shape.n, place);
        let Some(entry) = read_line(word_of(place), is_named(place), ranges.as_slice(), line) else {
            return false;
        };
        if !self.suits(place, &entry) {
            return false;
        }
        self.shape = reshaped(self.shape, place, &entry);
        self.fed += part_in(place, &entry);
        self.entries.push(entry);
        true
    }

    /// The tests of a line beside its form: the edition is one of two, no name stands twice, the feed stays in its range, ends are
    /// in order, a phase isn't empty.
    fn suits(&self, place: Place, entry: &Entry) -> bool
        ensures suits { result ≡ suits self.now place (said_by entry.now) }
        ensures fed { IsTrue result → self.now.fed + part_in place (said_by entry.now) ≤ 1048576 }
    {
        let _ = &self.fed;
        match place {
            Place::Edition => up_to(78, number_in(entry, 0)) != 77,
            Place::Component(_) => self.is_new(entry),
            Place::RootTwo => number_in(entry, 0) <= number_in(entry, 1),
            Place::LogE => number_in(entry, 0) <= number_in(entry, 1),
            Place::TemperatureRoot(_) => number_in(entry, 1) <= number_in(entry, 2),
            Place::PressureRoot(_, _) => number_in(entry, 2) <= number_in(entry, 3),
            Place::Phase(_) => has_part(entry),
            _ => true,
        }
    }

    /// No line has the name of this one, and the feed has room for its part.
    fn is_new(&self, entry: &Entry) -> bool
        ensures new { result ≡ is_new self.now (said_by entry.now) }
        ensures fed { IsTrue result → self.now.fed + up_to 1048576 (number_in (said_by entry.now) 3) ≤ 1048576 }
    {
        if is_named_in(self.entries.as_slice(), &entry.name) {
            return false;
        }
        self.fed + part_of_feed(entry) <= 1 << 20
    }
}

/// A line has this name.
fn is_named_in(entries: &[Entry], name: &Name) -> bool
    ensures { result ≡ list_any (λ e. bytes_eq e.name (text_of name.now)) (map said_by entries.now) }
{
    for entry in entries {
        if has_name(entry, name) {
            return true;
        }
    }
    false
}

/// The line has this name.
fn has_name(entry: &Entry, name: &Name) -> bool
    ensures { result ≡ bytes_eq (said_by entry.now).name (text_of name.now) }
{
    name_text(&entry.name) == name_text(name)
}

/// A number of a line, or 0.
fn number_in(entry: &Entry, at: usize) -> i128
    ensures { result ≡ number_in (said_by entry.now) at }
{
    if at < entry.numbers.len() {
        entry.numbers[at]
    } else {
        0
    }
}

/// The number is from 0 to the limit.
fn is_within(limit: u32, z: i128) -> bool
    ensures exact { result ≡ (int_le (pos 0) z && int_le z (pos limit)) }
    ensures low { IsTrue result → pos 0 ≤ℤ z }
    ensures high { IsTrue result → z ≤ℤ pos limit }
{
    0 <= z && z <= i128::from(limit)
}

/// A number up to a limit, else 0.
fn up_to(limit: u32, z: i128) -> u32
    ensures value { result ≡ up_to limit z }
    ensures small { result ≤ limit }
{
    if is_within(limit, z) { z as u32 } else { 0 }
}

/// The small number that a line begins with.
fn small_in(entry: &Entry) -> u8
    ensures value { result ≡ up_to 4 (number_in (said_by entry.now) 0) }
    ensures small { result ≤ 4 }
{
    up_to(4, number_in(entry, 0)) as u8
}

/// The part of the feed of a component's line.
fn part_of_feed(entry: &Entry) -> u32
    ensures value { result ≡ up_to 1048576 (number_in (said_by entry.now) 3) }
    ensures small { result ≤ 1048576 }
{
    up_to(1 << 20, number_in(entry, 3))
}

/// The part of the feed that a line has.
fn part_in(place: Place, entry: &Entry) -> u32
    ensures value { result ≡ part_in place (said_by entry.now) }
{
    match place {
        Place::Component(_) => part_of_feed(entry),
        _ => 0,
    }
}

/// The shape, with what a line says of it.
fn reshaped(shape: Shape, place: Place, entry: &Entry) -> Shape
    requires n { shape.n ≤ 4 }
    requires phases { shape.phases ≤ 4 }
    requires letters { shape.letters ≤ 60000000 }
    ensures shape { result ≡ reshaped shape place (said_by entry.now) }
    ensures n { result.n ≤ 4 }
    ensures phases { result.phases ≤ 4 }
    ensures letters { result.letters ≤ 60000000 }
{
    match place {
        Place::Version => Shape {
            version: small_in(entry),
            n: shape.n,
            phases: shape.phases,
            letters: shape.letters,
        },
        Place::Count => Shape {
            version: shape.version,
            n: small_in(entry),
            phases: shape.phases,
            letters: shape.letters,
        },
        Place::Split => Shape {
            version: shape.version,
            n: shape.n,
            phases: small_in(entry),
            letters: shape.letters,
        },
        Place::Letters => Shape {
            version: shape.version,
            n: shape.n,
            phases: shape.phases,
            letters: up_to(60_000_000, number_in(entry, 0)),
        },
        _ => shape,
    }
}

/// A number of a line is more than 0.
fn is_some(entry: &Entry, at: usize) -> bool
    ensures { result ≡ int_lt (pos 0) (number_in (said_by entry.now) at) }
{
    number_in(entry, at) > 0
}

/// A phase has a part.
fn has_part(entry: &Entry) -> bool
    ensures { result ≡ has_part (said_by entry.now) }
{
    if is_some(entry, 1) {
        return true;
    }
    if is_some(entry, 2) {
        return true;
    }
    if is_some(entry, 3) {
        return true;
    }
    is_some(entry, 4)
}
