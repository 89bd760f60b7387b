//! Where a line of a head stands, by its place.

ghost use Rattle.std.specs.Prelude.{◌≡◌, ◌≤◌, ◌<◌};
ghost use Rattle.cert_lines.specs.Indices.{components_start, interactions_start, roots_start, pressure_roots_start, split_start, ends_start, pair_index, index_of};

use crate::places::{Place, Shape, pairs_of};

/// The index of a line from 0.
#[tactic(auto, unfolding(crate::specs::Indices::index_of))]
pub fn index_of(shape: Shape, place: Place) -> u32
    requires { shape.n ≤ 4 }
    ensures { result ≡ index_of shape place }
{
    match place {
        Place::Version => 0,
        Place::Temperature => 1,
        Place::Pressure => 2,
        Place::Count => 3,
        Place::Edition => 4,
        Place::Component(i) => components_start(shape) + u32::from(i),
        Place::Interaction(i, j) => interactions_start(shape) + pair_index(shape.n, i, j),
        Place::RootTwo => roots_start(shape),
        Place::LogE => roots_start(shape) + 1,
        Place::TemperatureRoot(i) => roots_start(shape) + 2 + u32::from(i),
        Place::PressureRoot(i, j) => pressure_roots_start(shape) + pair_index(shape.n, i, j),
        Place::Split => split_start(shape),
        Place::Phase(k) => split_start(shape) + 1 + u32::from(k),
        Place::Upper => ends_start(shape),
        Place::Plane => ends_start(shape) + 1,
        Place::Low => ends_start(shape) + 2,
        Place::Gap => ends_start(shape) + 3,
        Place::Letters => ends_start(shape) + 4,
    }
}

/// The index of the first component's line.
fn components_start(shape: Shape) -> u32
    ensures value { result ≡ components_start shape }
    ensures few { result ≤ 5 }
{
    if shape.version == 2 { 5 } else { 4 }
}

/// The index of the line behind the components.
fn interactions_start(shape: Shape) -> u32
    requires { shape.n ≤ 4 }
    ensures value { result ≡ interactions_start shape }
    ensures few { result ≤ 9 }
{
    components_start(shape) + u32::from(shape.n)
}

/// The index of the line of the root of 2.
fn roots_start(shape: Shape) -> u32
    requires { shape.n ≤ 4 }
    ensures value { result ≡ roots_start shape }
    ensures few { result ≤ 15 }
{
    interactions_start(shape) + pairs_of(shape.n)
}

/// The index of the line behind the temperature roots.
fn pressure_roots_start(shape: Shape) -> u32
    requires { shape.n ≤ 4 }
    ensures value { result ≡ pressure_roots_start shape }
    ensures few { result ≤ 21 }
{
    roots_start(shape) + 2 + u32::from(shape.n)
}

/// The index of the line of the split.
fn split_start(shape: Shape) -> u32
    requires { shape.n ≤ 4 }
    ensures value { result ≡ split_start shape }
    ensures few { result ≤ 27 }
{
    pressure_roots_start(shape) + pairs_of(shape.n)
}

/// The index of the line behind the phases.
fn ends_start(shape: Shape) -> u32
    requires { shape.n ≤ 4 }
    ensures value { result ≡ ends_start shape }
    ensures few { result ≤ 283 }
{
    split_start(shape) + 1 + u32::from(shape.phases)
}

/// The index of a pair among those of `n` components.
fn pair_index(n: u8, i: u8, j: u8) -> u32
    ensures value { result ≡ pair_index n i j }
    ensures few { result < 1000 }
{
    match i {
        0 => u32::from(j).saturating_sub(1),
        1 => (u32::from(n) + u32::from(j)).saturating_sub(3),
        _ => 5,
    }
}
