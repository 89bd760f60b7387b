//! What the lines of a head look like.

ghost use Rattle.std.specs.Prelude.{◌≡◌, ◌≤◌, ◌+◌, length, take, ℤ};
ghost use Rattle.cert_lines.specs.Forms.{word_of, is_named, ranges_of, between, only, end, part, packing, energy};

use crate::lines::Range;
use crate::places::Place;
use arrayvec::ArrayVec;

/// The numbers of a line.
pub type Ranges = ArrayVec<Range, 5>;

/// The word of a line.
pub fn word_of(place: Place) -> &'static [u8]
    ensures { result.now ≡ word_of place }
{
    match place {
        Place::Version => b"prflash-cert".as_slice(),
        Place::Temperature => b"T".as_slice(),
        Place::Pressure => b"P".as_slice(),
        Place::Count => b"n".as_slice(),
        Place::Edition => b"kappa".as_slice(),
        Place::Component(_) => b"c".as_slice(),
        Place::Interaction(_, _) => b"k".as_slice(),
        Place::RootTwo => b"two".as_slice(),
        Place::LogE => b"e".as_slice(),
        Place::TemperatureRoot(_) => b"t".as_slice(),
        Place::PressureRoot(_, _) => b"q".as_slice(),
        Place::Split => b"split".as_slice(),
        Place::Phase(_) => b"f".as_slice(),
        Place::Upper => b"U".as_slice(),
        Place::Plane => b"plane".as_slice(),
        Place::Low => b"low".as_slice(),
        Place::Gap => b"gap".as_slice(),
        Place::Letters => b"tree".as_slice(),
    }
}

/// Whether a line has a name.
pub fn is_named(place: Place) -> bool
    ensures { result ≡ is_named place }
{
    match place {
        Place::Component(_) => true,
        _ => false,
    }
}

/// The numbers of a line of `n` components.
pub fn ranges_of(n: u8, place: Place) -> Ranges
    requires { n ≤ 4 }
    ensures { result.items ≡ ranges_of n place }
{
    match place {
        Place::Version => gathered(&[between(1, 2)]),
        Place::Temperature => gathered(&[between(50_000, 1_500_000)]),
        Place::Pressure => gathered(&[between(1_000, 100_000_000)]),
        Place::Count => gathered(&[between(1, 4)]),
        Place::Edition => gathered(&[between(76, 78)]),
        Place::Component(_) => gathered(&[
            between(5_000, 1_500_000),
            between(100_000, 50_000_000),
            between(-5_000, 15_000),
            between(1, 1_048_576),
        ]),
        Place::Interaction(i, j) => gathered(&[only(i), only(j), between(-5_000, 5_000)]),
        Place::RootTwo => gathered(&[end(), end()]),
        Place::LogE => gathered(&[end(), end()]),
        Place::TemperatureRoot(i) => gathered(&[only(i), end(), end()]),
        Place::PressureRoot(i, j) => gathered(&[only(i), only(j), end(), end()]),
        Place::Split => gathered(&[between(1, 4), between(1, (1 << 104) - 1)]),
        Place::Phase(_) => first(&[packing(), part(), part(), part(), part()], n as usize + 1),
        Place::Upper => gathered(&[energy()]),
        Place::Plane => first(&[energy(), energy(), energy(), energy()], n as usize),
        Place::Low => gathered(&[energy()]),
        Place::Gap => gathered(&[energy()]),
        Place::Letters => gathered(&[between(1, 60_000_000)]),
    }
}

/// The numbers from `low` to `high`.
fn between(low: i128, high: i128) -> Range
    ensures { result ≡ between low high }
{
    Range { low, high }
}

/// The number of a component, which counts from 1 in the text.
fn only(i: u8) -> Range
    ensures { result ≡ only i }
{
    between(i128::from(i) + 1, i128::from(i) + 1)
}

/// An end of an interval.
fn end() -> Range
    ensures { result ≡ end }
{
    between(-(1 << 62) + 1, (1 << 62) - 1)
}

/// A part of a phase.
fn part() -> Range
    ensures { result ≡ part }
{
    between(0, (1 << 104) - 1)
}

/// A packing strictly between 0 and 1.
fn packing() -> Range
    ensures { result ≡ packing }
{
    between(1, (1 << 40) - 1)
}

/// An energy, a plane, a low or a gap.
fn energy() -> Range
    ensures { result ≡ energy }
{
    between(-(1 << 80) + 1, (1 << 80) - 1)
}

/// A list of ranges.
fn gathered(items: &[Range]) -> Ranges
    requires { length items.now ≤ 5 }
    ensures { result.items ≡ items.now }
{
    let mut ranges = Ranges::new();
    for range in items {
        ranges.push(*range);
    }
    ranges
}

/// The first ranges of a list.
fn first(items: &[Range], count: usize) -> Ranges
    requires fits { length items.now ≤ 5 }
    requires inside { count ≤ length items.now }
    ensures { result.items ≡ take count items.now }
{
    gathered(&items[..count])
}
