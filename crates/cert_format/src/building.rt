//! A head, made of its lines.

ghost use Rattle.std.specs.Prelude.{◌≡◌, ◌≤◌, ◌<◌, ◌^◌, ◌-◌, map, length, IsTrue, ℤ, pos, unsigned_abs};
ghost use Rattle.std.specs.List.{range_with_len};
ghost use Rattle.log_laws.specs.Interval.{ends_of};
ghost use Rattle.case_types.specs.Ranges.{are_parts};
ghost use Rattle.cert_lines.specs.Heads.{count_of, letters_of};
ghost use Rattle.cert_lines.specs.Indices.{number_on};
ghost use Rattle.cert_lines.specs.declared.places.Place.TheVariants.{Split as SplitLine};
ghost use Rattle.cert_format.specs.Reading.{IsHeadOf};
ghost use Rattle.cert_format.specs.Building.{IsWhole, four, six_pairs, temperature_root_on, pressure_root_on, part_on, phase_on, phases_on, potential_on, natural};

use crate::case_building::case_of;
use crate::heads::{CertParams, Head};
use crate::line_numbers::{ends_on, energy_on, packing, part};
use arrayvec::ArrayVec;
use case_types::{PAIRS, Phase, Plane, SLOTS, Split};
use cert_lines::{LineReader, Place};
use log_laws::Iv;

/// The head that the lines say.
pub fn head_of(lines: &LineReader) -> Head
    requires { IsWhole lines.now }
    ensures { IsHeadOf lines.now result }
{
    Head {
        version: lines.shape().version,
        params: CertParams {
            case: case_of(lines),
            two: ends_on(lines, Place::RootTwo, 0),
            e: ends_on(lines, Place::LogE, 0),
            t: temperature_roots(lines),
            q: pressure_roots(lines),
        },
        split: split_of(lines),
        u: energy_on(lines, Place::Upper, 0),
        plane: plane_of(lines),
        low: energy_on(lines, Place::Low, 0),
        gap: energy_on(lines, Place::Gap, 0),
        letters: lines.letters(),
    }
}

/// The roots of T/Tc of four components.
fn temperature_roots(lines: &LineReader) -> [Iv; SLOTS]
    ensures { map ends_of result ≡ four (temperature_root_on lines.now) }
{
    [
        temperature_root(lines, 0),
        temperature_root(lines, 1),
        temperature_root(lines, 2),
        temperature_root(lines, 3),
    ]
}

/// The root of T/Tc of a component, which is 0 where it isn't live.
fn temperature_root(lines: &LineReader, i: u8) -> Iv
    ensures { ends_of result ≡ temperature_root_on lines.now i }
{
    if i < lines.components() {
        ends_on(lines, Place::TemperatureRoot(i), 1)
    } else {
        Iv { lo: 0, hi: 0 }
    }
}

/// The roots of the products of two critical pressures.
fn pressure_roots(lines: &LineReader) -> [Iv; PAIRS]
    ensures { map ends_of result ≡ six_pairs (pressure_root_on lines.now) }
{
    [
        pressure_root(lines, 0, 1),
        pressure_root(lines, 0, 2),
        pressure_root(lines, 0, 3),
        pressure_root(lines, 1, 2),
        pressure_root(lines, 1, 3),
        pressure_root(lines, 2, 3),
    ]
}

/// The root of a pair, which is 0 where it isn't live.
fn pressure_root(lines: &LineReader, i: u8, j: u8) -> Iv
    ensures { ends_of result ≡ pressure_root_on lines.now i j }
{
    if j < lines.components() {
        ends_on(lines, Place::PressureRoot(i, j), 2)
    } else {
        Iv { lo: 0, hi: 0 }
    }
}

/// The split into phases.
fn split_of(lines: &LineReader) -> Split
    requires { IsWhole lines.now }
    ensures sum { result.sum ≡ natural 1 (2 ^ 104 - 1) (number_on lines.now SplitLine 1) }
    ensures phases { result.phases.items ≡ phases_on lines.now }
{
    Split {
        sum: part(1, lines.number(Place::Split, 1)),
        phases: phases_of(lines),
    }
}

/// The phases in their order.
fn phases_of(lines: &LineReader) -> ArrayVec<Phase, SLOTS>
    requires { IsWhole lines.now }
    ensures { result.items ≡ phases_on lines.now }
{
    let mut phases = ArrayVec::new();
    for k in 0..lines.shape().phases {
        phases.push(phase_of(lines, k));
    }
    phases
}

/// A phase of a line.
fn phase_of(lines: &LineReader, k: u8) -> Phase
    ensures { result ≡ phase_on lines.now k }
{
    Phase {
        parts: [
            part_of(lines, k, 0),
            part_of(lines, k, 1),
            part_of(lines, k, 2),
            part_of(lines, k, 3),
        ],
        packing: packing(lines.number(Place::Phase(k), 0)),
    }
}

/// The part of a component in a phase, which is 0 where it isn't live.
fn part_of(lines: &LineReader, k: u8, i: u8) -> u128
    ensures { result ≡ part_on lines.now k i }
{
    if i < lines.components() {
        part(0, lines.number(Place::Phase(k), i as usize + 1))
    } else {
        0
    }
}

/// The plane by its potentials.
fn plane_of(lines: &LineReader) -> Plane
    ensures { result.lam ≡ four (potential_on lines.now) }
{
    Plane {
        lam: [
            potential(lines, 0),
            potential(lines, 1),
            potential(lines, 2),
            potential(lines, 3),
        ],
    }
}

/// The potential of a component, which is 0 where it isn't live.
fn potential(lines: &LineReader, i: u8) -> i128
    ensures value { result ≡ potential_on lines.now i }
    ensures size { unsigned_abs result < 2 ^ 80 }
{
    if i < lines.components() {
        energy_on(lines, Place::Plane, i as usize)
    } else {
        0
    }
}
