//! What a search for a phase boundary is asked of.

ghost use Rattle.std.specs.Prelude.{◌≡◌, ◌≤◌, ◌<◌};
ghost use Rattle.case_words.specs.Quantities.{places_of, least, greatest, quantity};

use crate::jobs::FlashWords;

/// The quantity that a search for a phase boundary goes over.
#[derive(Clone, Copy, Debug, PartialEq, Eq)]
pub enum By {
    /// The pressure in Pa, at a given temperature.
    Pressure,
    /// The temperature in mK, at a given pressure.
    Temperature,
}

/// The phase that the feed is on the whole side of the boundary.
#[derive(Clone, Copy, Debug, PartialEq, Eq)]
pub enum Side {
    /// Liquid: the boundary is a bubble point.
    Bubble,
    /// Vapour: the boundary is a dew point.
    Dew,
}

/// What a search for a phase boundary is asked of. Its places are pressures in Pa or temperatures in mK, as it goes over the one or
/// the other.
#[derive(Drop)]
pub struct EdgeWords {
    /// What a flash at the lower end is asked of.
    pub base: FlashWords,
    /// The quantity that is searched over.
    pub by: By,
    /// The wanted phase.
    pub side: Side,
    /// The lower end.
    pub lo: u32,
    /// The upper end.
    pub hi: u32,
    /// The most that the ends of the answer may differ.
    pub width: u32,
    pub ghost lo_least: { least by ≤ lo },
    pub ghost hi_greatest: { hi ≤ greatest by },
    pub ghost ordered: { lo < hi },
    pub ghost some_width: { 1 ≤ width },
    pub ghost starts: { quantity by base.t base.p ≡ lo },
}

impl By {
    /// How many places the quantity has in words: K have three, Pa none.
    pub fn places(self) -> u32
        ensures value { result ≡ places_of self }
        ensures few { result ≤ 4 }
    {
        match self {
            By::Pressure => 0,
            By::Temperature => 3,
        }
    }

    /// The least value, in units of the last place.
    pub fn least(self) -> u32
        ensures { result ≡ least self }
    {
        match self {
            By::Pressure => 1_000,
            By::Temperature => 50_000,
        }
    }

    /// The greatest value, in units of the last place.
    pub fn greatest(self) -> u32
        ensures { result ≡ greatest self }
    {
        match self {
            By::Pressure => 100_000_000,
            By::Temperature => 1_500_000,
        }
    }
}
