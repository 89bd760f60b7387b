//! Fractions of machine numbers.

ghost use Rattle.std.specs.Prelude.{◌≤◌};

/// A fraction: a whole number over a whole number of at least 1.
///
/// `==` compares the two numbers, not what they stand for; [`frac_cmp`] does that.
#[derive(Clone, Copy, Debug, PartialEq, Eq)]
pub struct Frac {
    pub num: i128,
    pub den: u128,
    pub ghost positive: { 1 ≤ den },
}
