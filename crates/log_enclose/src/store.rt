//! Logarithms that were made before, by their mantissas.

ghost use Rattle.std.specs.Prelude.{◌≡◌, ◌<◌, ◌≤◌, ◌+◌, ◌^◌};
ghost use Rattle.log_laws.specs.Squaring.{IsNormal, down, up};

use crate::digits::log2_both;
use std::array;
use std::cell::Cell;

/// How many places a store has.
const PLACES: usize = 4096;

/// A mantissa in 2^-61 with both ends of its logarithm in 2^-40. The mantissa 0 has none.
#[derive(Clone, Copy)]
pub struct Kept {
    pub mantissa: u64,
    pub lower: u64,
    pub upper: u64,
    pub ghost lower_small: { lower ≤ 2 ^ 40 },
    pub ghost upper_small: { upper ≤ 2 ^ 40 },
    pub ghost below: { IsNormal mantissa → lower ≡ down mantissa 40 },
    pub ghost above: { IsNormal mantissa → upper ≡ up mantissa 40 },
}

/// The mantissa 0.
const NOTHING: Kept = Kept {
    mantissa: 0,
    lower: 0,
    upper: 0,
};

/// Logarithms that were made before. A mantissa has one place where its logarithm may stand; another that has the same place takes
/// it over. What stands there is right by its type, so that an answer never depends on what was asked before.
#[derive(Drop)]
pub struct LogStore {
    places: [Cell<Kept>; PLACES],
}

impl LogStore {
    /// A store without logarithms.
    pub fn new() -> LogStore {
        LogStore {
            places: array::from_fn(|_place| Cell::new(NOTHING)),
        }
    }

    /// Both ends of a mantissa's logarithm: those that stand at its place, or else made anew and kept there.
    pub(crate) fn ends_of(&self, mantissa: u64) -> Kept
        requires { IsNormal mantissa }
        ensures lower { result.lower ≡ down mantissa 40 }
        ensures upper { result.upper ≡ up mantissa 40 }
    {
        let place = &self.places[place_of(mantissa)];
        let kept = place.get();
        if kept.mantissa == mantissa {
            return kept;
        }
        let made = made(mantissa);
        place.set(made);
        made
    }
}

/// Both ends of a mantissa's logarithm.
fn made(mantissa: u64) -> Kept
    requires { IsNormal mantissa }
    ensures { result.mantissa ≡ mantissa }
{
    let (lower, upper) = log2_both(mantissa as u128, mantissa as u128, 40);
    Kept {
        mantissa,
        lower: lower as u64,
        upper: upper as u64,
    }
}

/// The place of a mantissa: the first twelve bits of its product with an odd number.
fn place_of(mantissa: u64) -> usize
    ensures { result < 4096 }
{
    (mantissa.wrapping_mul(0x9E37_79B9_7F4A_7C15) >> 52) as usize
}
