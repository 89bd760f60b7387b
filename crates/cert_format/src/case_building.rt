//! The case of a head, made of its lines.

ghost use Rattle.std.specs.Prelude.{◌≡◌, ◌≤◌, ◌<◌, slice_index, neg_ℤ, ℤ, pos};
ghost use Rattle.log_laws.specs.Sums.{sum_below};
ghost use Rattle.case_words.specs.Names.{text_of};
ghost use Rattle.cert_lines.specs.Indices.{number_on, said_on};
ghost use Rattle.cert_format.specs.Building.{IsWhole, IsCaseOf, AreRowsOf, IsRowOf, edition_on, four, feed_on, pair_on, interaction_on, held, natural};

use crate::line_numbers::{acentric_factor, interaction as held_interaction, natural};
use case_types::{Case, Edition, Name, Row, SLOTS};
use cert_lines::{LineReader, Place};

/// The case that the lines say.
pub fn case_of(lines: &LineReader) -> Case
    requires { IsWhole lines.now }
    ensures { IsCaseOf lines.now result }
{
    let z = feed_of(lines);
    Case {
        n: lines.components(),
        rows: rows_of(lines),
        k: interactions_of(lines),
        z,
        total: total_of(z),
        t: natural(50_000, 1_500_000, lines.number(Place::Temperature, 0)),
        p: natural(1_000, 100_000_000, lines.number(Place::Pressure, 0)),
        edition: edition_of(lines),
    }
}

/// The edition of the equation: that of 1976 unless the lines say another.
fn edition_of(lines: &LineReader) -> Edition
    ensures { result ≡ edition_on lines.now }
{
    if lines.shape().version == 2 && natural(76, 78, lines.number(Place::Edition, 0)) == 78 {
        Edition::Y1978
    } else {
        Edition::Y1976
    }
}

/// The four components.
fn rows_of(lines: &LineReader) -> [Row; SLOTS]
    ensures { AreRowsOf lines.now result }
{
    [
        row_of(lines, 0),
        row_of(lines, 1),
        row_of(lines, 2),
        row_of(lines, 3),
    ]
}

/// A component, or one without a name where it isn't live.
fn row_of(lines: &LineReader, i: u8) -> Row
    ensures { IsRowOf lines.now i result }
{
    if i < lines.components() {
        live_row(lines, Place::Component(i))
    } else {
        Row {
            name: Name {
                len: 0,
                bytes: [0; 16],
            },
            tc: 5_000,
            pc: 100_000,
            w: 0,
        }
    }
}

/// The component of a line.
fn live_row(lines: &LineReader, place: Place) -> Row
    ensures name { text_of result.name ≡ (said_on lines.now place).name }
    ensures tc { result.tc ≡ natural 5000 1500000 (number_on lines.now place 0) }
    ensures pc { result.pc ≡ natural 100000 50000000 (number_on lines.now place 1) }
    ensures w { result.w ≡ held (neg_ℤ (pos 5000)) (pos 15000) (number_on lines.now place 2) }
{
    Row {
        name: lines.name(place),
        tc: natural(5_000, 1_500_000, lines.number(place, 0)),
        pc: natural(100_000, 50_000_000, lines.number(place, 1)),
        w: acentric_factor(lines.number(place, 2)),
    }
}

/// The parts of the feed.
fn feed_of(lines: &LineReader) -> [u32; SLOTS]
    ensures { result ≡ four (feed_on lines.now) }
{
    [
        feed_part(lines, 0),
        feed_part(lines, 1),
        feed_part(lines, 2),
        feed_part(lines, 3),
    ]
}

/// A component's part of the feed, which is 0 where it isn't live.
fn feed_part(lines: &LineReader, i: u8) -> u32
    ensures value { result ≡ feed_on lines.now i }
    ensures small { result ≤ 1048576 }
{
    if i < lines.components() {
        natural(1, 1 << 20, lines.number(Place::Component(i), 3))
    } else {
        0
    }
}

/// The sum of four parts.
fn total_of(z: [u32; SLOTS]) -> u32
    requires { sum_below 4 (slice_index z) ≤ 1048576 }
    ensures { result ≡ sum_below 4 (slice_index z) }
{
    z[0] + z[1] + z[2] + z[3]
}

/// The interactions of all pairs.
fn interactions_of(lines: &LineReader) -> [[i32; SLOTS]; SLOTS]
    ensures { result ≡ four (λ i. four (interaction_on lines.now i)) }
{
    [
        interactions_with(lines, 0),
        interactions_with(lines, 1),
        interactions_with(lines, 2),
        interactions_with(lines, 3),
    ]
}

/// The interactions of a component with each.
fn interactions_with(lines: &LineReader, i: u8) -> [i32; SLOTS]
    ensures { result ≡ four (interaction_on lines.now i) }
{
    [
        interaction(lines, i, 0),
        interaction(lines, i, 1),
        interaction(lines, i, 2),
        interaction(lines, i, 3),
    ]
}

/// The interaction of two components, which is 0 of one with itself.
fn interaction(lines: &LineReader, i: u8, j: u8) -> i32
    ensures { result ≡ interaction_on lines.now i j }
{
    if i < j {
        return pair(lines, i, j);
    }
    if j < i {
        return pair(lines, j, i);
    }
    0
}

/// The interaction of a pair, which is 0 where it isn't live.
fn pair(lines: &LineReader, i: u8, j: u8) -> i32
    ensures { result ≡ pair_on lines.now i j }
{
    if j < lines.components() {
        held_interaction(lines.number(Place::Interaction(i, j), 2))
    } else {
        0
    }
}
