//! What a head says on each of its lines.

ghost use Rattle.std.specs.Prelude.{◌≡◌, ◌≤◌, ◌<◌, ◌+◌, ◌∷◌, [], length, map, pos, IsTrue, slice_index_or};
ghost use Rattle.std.specs.List.{list_all};
ghost use Rattle.log_laws.specs.Interval.{ends_of};
ghost use Rattle.case_types.specs.Ranges.{are_parts};
ghost use Rattle.case_types.specs.Energy.Components.{interaction};
ghost use Rattle.case_types.specs.Energy.Instances.{pair_place};
ghost use Rattle.case_types.specs.Arithmetic.Tables.{ends_at};
ghost use Rattle.case_words.specs.Names.{text_of};
ghost use Rattle.cert_lines.specs.Lines.{said_by};
ghost use Rattle.cert_lines.specs.Places.{IsPlaceOf};
ghost use Rattle.cert_format.specs.Heads.{shape_of, says, saying, edition_number, component_said, ends_said, phase_said, name_of_component};

use crate::heads::Head;
use arrayvec::ArrayVec;
use case_types::{Case, Edition, Name, PAIRS, Phase, SLOTS};
use cert_lines::{Entry, Place, Shape};
use log_laws::Iv;

/// How many lines of each kind the head has.
pub fn shape_of(head: &Head) -> Shape
    ensures shape { result ≡ shape_of head.now }
    ensures n { result.n ≤ 4 }
    ensures phases { result.phases ≤ 4 }
{
    Shape {
        version: head.version,
        n: head.params.case.n,
        phases: head.split.phases.len() as u8,
        letters: head.letters,
    }
}

/// What the head says on one of its lines.
#[tactic(auto, unfolding(crate::specs::Heads::says))]
pub fn entry_at(head: &Head, place: Place) -> Entry
    requires { IsPlaceOf (shape_of head.now) place }
    ensures { said_by result ≡ says head.now place }
{
    let params = &head.params;
    let case = &params.case;
    match place {
        Place::Version => one(i128::from(head.version)),
        Place::Temperature => one(i128::from(case.t)),
        Place::Pressure => one(i128::from(case.p)),
        Place::Count => one(i128::from(case.n)),
        Place::Edition => one(edition_number(case.edition)),
        Place::Component(i) => component_said(case, i),
        Place::Interaction(i, j) => interaction_said(case, i, j),
        Place::RootTwo => two(params.two.lo, params.two.hi),
        Place::LogE => two(params.e.lo, params.e.hi),
        Place::TemperatureRoot(i) => temperature_said(&params.t, i),
        Place::PressureRoot(i, j) => pressure_said(&params.q, i, j),
        Place::Split => two(head.split.phases.len() as i128, head.split.sum as i128),
        Place::Phase(k) => phase_at(case.n, head.split.phases.as_slice(), k),
        Place::Upper => one(head.u),
        Place::Plane => saying(&head.plane.lam[..case.n as usize]),
        Place::Low => one(head.low),
        Place::Gap => one(head.gap),
        Place::Letters => one(i128::from(head.letters)),
    }
}

/// A line without a name.
fn saying(numbers: &[i128]) -> Entry
    requires { length numbers.now ≤ 5 }
    ensures { said_by result ≡ saying numbers.now }
{
    Entry {
        name: Name {
            len: 0,
            bytes: [0; 16],
        },
        numbers: copied(numbers),
    }
}

/// A line of one number.
fn one(z: i128) -> Entry
    ensures { said_by result ≡ saying (z ∷ []) }
{
    saying(&[z])
}

/// A line of two numbers.
fn two(a: i128, b: i128) -> Entry
    ensures { said_by result ≡ saying (a ∷ b ∷ []) }
{
    saying(&[a, b])
}

/// A line of three numbers.
fn three(a: i128, b: i128, c: i128) -> Entry
    ensures { said_by result ≡ saying (a ∷ b ∷ c ∷ []) }
{
    saying(&[a, b, c])
}

/// A line of four numbers.
fn four(a: i128, b: i128, c: i128, d: i128) -> Entry
    ensures { said_by result ≡ saying (a ∷ b ∷ c ∷ d ∷ []) }
{
    saying(&[a, b, c, d])
}

/// A list of numbers.
fn copied(numbers: &[i128]) -> ArrayVec<i128, 5>
    requires { length numbers.now ≤ 5 }
    ensures { result.items ≡ numbers.now }
{
    let mut list = ArrayVec::new();
    for z in numbers {
        list.push(*z);
    }
    list
}

/// The number of a component in the text, which counts from 1 there.
fn from_one(i: u8) -> i128
    ensures { result ≡ pos (i + 1) }
{
    i128::from(i) + 1
}

/// The number of an edition in the text.
fn edition_number(edition: Edition) -> i128
    ensures { result ≡ pos (edition_number edition) }
{
    match edition {
        Edition::Y1976 => 76,
        Edition::Y1978 => 78,
    }
}

/// A component's name, its critical point, its acentric factor and its part of the feed.
fn component_said(case: &Case, i: u8) -> Entry
    requires { i < case.now.n }
    ensures { said_by result ≡ component_said case.now i }
{
    let i = i as usize;
    let row = case.rows[i];
    let Entry { numbers, .. } = four(
        i128::from(row.tc),
        i128::from(row.pc),
        i128::from(row.w),
        i128::from(case.z[i]),
    );
    Entry {
        name: row.name,
        numbers,
    }
}

/// The interaction of two components.
fn interaction_said(case: &Case, i: u8, j: u8) -> Entry
    requires first { i < 4 }
    requires second { j < 4 }
    ensures { said_by result ≡ saying (pos (i + 1) ∷ pos (j + 1) ∷ interaction case.now i j ∷ []) }
{
    let row = case.k[i as usize];
    three(from_one(i), from_one(j), i128::from(row[j as usize]))
}

/// A component's root of the temperatures.
fn temperature_said(roots: &[Iv; SLOTS], i: u8) -> Entry
    requires { i < 4 }
    ensures { said_by result ≡ ends_said (pos (i + 1) ∷ []) (ends_at (map ends_of roots.now) i) }
{
    let root = roots[i as usize];
    three(from_one(i), root.lo, root.hi)
}

/// The root of the pressures of two components.
fn pressure_said(roots: &[Iv; PAIRS], i: u8, j: u8) -> Entry
    requires ordered { i < j }
    requires few { j < 4 }
    ensures { said_by result ≡ ends_said (pos (i + 1) ∷ pos (j + 1) ∷ []) (ends_at (map ends_of roots.now) (pair_place i j)) }
{
    let first = i as usize;
    let root = roots[first * (5 - first) / 2 + j as usize - 1];
    four(from_one(i), from_one(j), root.lo, root.hi)
}

/// What a head of `n` components says of the phase at a place.
fn phase_at(n: u8, phases: &[Phase], k: u8) -> Entry
    requires few { n ≤ 4 }
    requires small { IsTrue (list_all (λ f. are_parts f.parts) phases.now) }
    requires inside { k < length phases.now }
    ensures { said_by result ≡ slice_index_or (map (phase_said n) phases.now) k (saying []) }
{
    phase_said(n, &phases[k as usize])
}

/// The packing fraction of a phase, and its parts of `n` components.
fn phase_said(n: u8, phase: &Phase) -> Entry
    requires few { n ≤ 4 }
    requires small { IsTrue (are_parts phase.now.parts) }
    ensures { said_by result ≡ phase_said n phase.now }
{
    let [a, b, c, d] = phase.parts;
    let numbers = [
        i128::from(phase.packing),
        a as i128,
        b as i128,
        c as i128,
        d as i128,
    ];
    saying(&numbers[..n as usize + 1])
}
