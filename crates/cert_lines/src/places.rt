//! The lines of a head in their order.

ghost use Rattle.std.specs.Prelude.{◌≡◌, ◌≤◌, ◌<◌, ◌+◌, ◌*◌, ◌-◌, ◌/◌, Option, Some, None, IfSome};
ghost use Rattle.std.specs.List.{slice_get};
ghost use Rattle.cert_lines.specs.Places.{places, pairs_of, pair_at, place_at, from_edition, from_components, from_interactions, from_roots, from_pressure_roots, from_split, from_ends};

/// How many lines of each kind a head has. Each number is 0 until the line is read that says it.
#[derive(Clone, Copy, Debug, PartialEq, Eq)]
pub struct Shape {
    /// The version of the text: 1, or 2 where the edition has a line.
    pub version: u8,
    /// The number of components, at most 4.
    pub n: u8,
    /// The number of phases, at most 4.
    pub phases: u8,
    /// The stated number of letters of the tree, at most 60,000,000. It says nothing of the lines.
    pub letters: u32,
}

/// A line of a head. Components and phases count from 0 here, and from 1 in the text.
#[derive(Clone, Copy, Debug, PartialEq, Eq)]
pub enum Place {
    /// `prflash-cert` and the version.
    Version,
    /// `T` and the temperature in mK.
    Temperature,
    /// `P` and the pressure in Pa.
    Pressure,
    /// `n` and the number of components.
    Count,
    /// `kappa` and the edition of the equation, 76 or 78.
    Edition,
    /// `c`, a name, the critical temperature in mK, the critical pressure in Pa, the acentric factor in 1e-4 and the part of the feed.
    Component(u8),
    /// `k`, two components and their interaction in 1e-4.
    Interaction(u8, u8),
    /// `two` and the ends of the square root of 2, in 2^-60.
    RootTwo,
    /// `e` and the ends of log2 e, in 2^-40.
    LogE,
    /// `t`, a component and the ends of the root of T/Tc, in 2^-48.
    TemperatureRoot(u8),
    /// `q`, two components and the ends of the root of the product of their critical pressures, in 2^-32 Pa.
    PressureRoot(u8, u8),
    /// `split`, the number of phases and the sum of their parts.
    Split,
    /// `f`, a packing fraction in 2^-40 and the part of each component.
    Phase(u8),
    /// `U` and the energy of the split at most, in 2^-40 bit.
    Upper,
    /// `plane` and the potential of each component, in 2^-40 bit.
    Plane,
    /// `low` and the least low over the plane, in 2^-40 bit.
    Low,
    /// `gap` and the gap, in 2^-40 bit.
    Gap,
    /// `tree` and the number of letters of the tree.
    Letters,
}

/// The line at an index, from 0, or none past the last line: a head has at most 37.
#[tactic(auto, using(crate::proofs::Listed::places_stand))]
pub fn place_at(shape: Shape, at: u32) -> Option<Place>
    requires n { shape.n ≤ 4 }
    requires phases { shape.phases ≤ 4 }
    ensures place { result ≡ place_at shape at }
    ensures listed { result ≡ slice_get (places shape) at }
    ensures few { IfSome result (λ p. at < 37) }
{
    from_front(shape, at)
}

/// The lines from the first on.
#[tactic(auto, unfolding(crate::specs::Places::place_at))]
fn from_front(shape: Shape, at: u32) -> Option<Place>
    requires n { shape.n ≤ 4 }
    requires phases { shape.phases ≤ 4 }
    ensures place { result ≡ place_at shape at }
    ensures few { IfSome result (λ p. at < 37) }
{
    match at {
        0 => Some(Place::Version),
        1 => Some(Place::Temperature),
        2 => Some(Place::Pressure),
        3 => Some(Place::Count),
        _ => from_edition(shape, at - 4),
    }
}

/// The lines from that of the edition on.
#[tactic(auto, unfolding(crate::specs::Places::from_edition))]
fn from_edition(shape: Shape, at: u32) -> Option<Place>
    requires n { shape.n ≤ 4 }
    requires phases { shape.phases ≤ 4 }
    ensures place { result ≡ from_edition shape at }
    ensures few { IfSome result (λ p. at < 33) }
{
    if shape.version != 2 {
        return from_components(shape, at);
    }
    if at == 0 {
        return Some(Place::Edition);
    }
    from_components(shape, at - 1)
}

/// The lines from those of the components on.
#[tactic(auto, unfolding(crate::specs::Places::from_components))]
fn from_components(shape: Shape, at: u32) -> Option<Place>
    requires n { shape.n ≤ 4 }
    requires phases { shape.phases ≤ 4 }
    ensures place { result ≡ from_components shape at }
    ensures few { IfSome result (λ p. at < 32) }
{
    let n = u32::from(shape.n);
    if at < n {
        return Some(Place::Component(at as u8));
    }
    from_interactions(shape, at - n)
}

/// The lines from those of the interactions on.
#[tactic(auto, unfolding(crate::specs::Places::from_interactions))]
fn from_interactions(shape: Shape, at: u32) -> Option<Place>
    requires n { shape.n ≤ 4 }
    requires phases { shape.phases ≤ 4 }
    ensures place { result ≡ from_interactions shape at }
    ensures few { IfSome result (λ p. at < 28) }
{
    let pairs = pairs_of(shape.n);
    if at < pairs {
        let (i, j) = pair_at(shape.n, at);
        return Some(Place::Interaction(i, j));
    }
    from_roots(shape, at - pairs)
}

/// The lines from that of the root of 2 on.
#[tactic(auto, unfolding(crate::specs::Places::from_roots))]
fn from_roots(shape: Shape, at: u32) -> Option<Place>
    requires n { shape.n ≤ 4 }
    requires phases { shape.phases ≤ 4 }
    ensures place { result ≡ from_roots shape at }
    ensures few { IfSome result (λ p. at < 22) }
{
    let n = u32::from(shape.n);
    if at == 0 {
        return Some(Place::RootTwo);
    }
    if at == 1 {
        return Some(Place::LogE);
    }
    if at - 2 < n {
        return Some(Place::TemperatureRoot((at - 2) as u8));
    }
    from_pressure_roots(shape, at - 2 - n)
}

/// The lines from those of the pressure roots on.
#[tactic(auto, unfolding(crate::specs::Places::from_pressure_roots))]
fn from_pressure_roots(shape: Shape, at: u32) -> Option<Place>
    requires n { shape.n ≤ 4 }
    requires phases { shape.phases ≤ 4 }
    ensures place { result ≡ from_pressure_roots shape at }
    ensures few { IfSome result (λ p. at < 16) }
{
    let pairs = pairs_of(shape.n);
    if at < pairs {
        let (i, j) = pair_at(shape.n, at);
        return Some(Place::PressureRoot(i, j));
    }
    from_split(shape, at - pairs)
}

/// The lines from that of the split on.
#[tactic(auto, unfolding(crate::specs::Places::from_split))]
fn from_split(shape: Shape, at: u32) -> Option<Place>
    requires n { shape.n ≤ 4 }
    requires phases { shape.phases ≤ 4 }
    ensures place { result ≡ from_split shape at }
    ensures few { IfSome result (λ p. at < 10) }
{
    let phases = u32::from(shape.phases);
    if at == 0 {
        return Some(Place::Split);
    }
    if at - 1 < phases {
        return Some(Place::Phase((at - 1) as u8));
    }
    from_ends(at - 1 - phases)
}

/// The lines behind the phases.
#[tactic(auto, unfolding(crate::specs::Places::from_ends))]
fn from_ends(at: u32) -> Option<Place>
    ensures place { result ≡ from_ends at }
    ensures few { IfSome result (λ p. at < 5) }
{
    match at {
        0 => Some(Place::Upper),
        1 => Some(Place::Plane),
        2 => Some(Place::Low),
        3 => Some(Place::Gap),
        4 => Some(Place::Letters),
        _ => None,
    }
}

/// How many pairs `n` components have.
pub fn pairs_of(n: u8) -> u32
    requires { n ≤ 4 }
    ensures value { result ≡ pairs_of n }
    ensures few { result ≤ 6 }
{
    match n {
        2 => 1,
        3 => 3,
        4 => 6,
        _ => 0,
    }
}

/// The pair at an index in the order 01, 02, .., 12, ..
fn pair_at(n: u8, at: u32) -> (u8, u8)
    requires few { n ≤ 4 }
    requires inside { at < pairs_of n }
    ensures pair { (result.0, result.1) ≡ pair_at n at }
{
    let n = u32::from(n);
    if at + 1 < n {
        return (0, (at + 1) as u8);
    }
    if at + 3 < 2 * n {
        return (1, (at + 3 - n) as u8);
    }
    (2, 3)
}
