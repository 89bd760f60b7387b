//! The ends of a search for a phase boundary, and what it answers.

use crate::answers::Outcome;
use crate::cases::ParamFault;

/// What the feed is at a place between two of which a phase boundary is looked for.
#[derive(Clone, Copy, Debug, PartialEq, Eq)]
pub enum Kind {
    /// A certified split lies below every state of one phase, by at least 2^-20 bit.
    Divided,
    /// One phase is certified, at a packing fraction of at least 0.2531.
    Liquid,
    /// One phase is certified, at a packing fraction below 0.2531.
    Vapour,
}

/// What the feed is at one place, and the numbers that say so. Energies are per mole of feed, in 2^-40 bit.
#[derive(Clone, Copy, Debug, PartialEq, Eq)]
pub struct EdgeEnd {
    /// The place: the pressure in Pa or the temperature in mK.
    pub at: u32,
    pub kind: Kind,
    /// The gap of the split where it is divided, and of one phase elsewhere.
    pub gap: i128,
    /// The upper energy of the flash's split.
    pub u: i128,
    /// The packing fraction of one phase in 2^-40.
    pub packing: u64,
    /// One phase at this packing fraction has at most this energy.
    pub up: i128,
    /// Every state of one phase has at least this energy.
    pub low: i128,
}

/// What a search for a phase boundary comes to.
#[derive(Clone, Copy, Debug, PartialEq, Eq)]
pub enum EdgeAnswer {
    /// One end is divided and the other is whole.
    Bracket {
        lo: EdgeEnd,
        hi: EdgeEnd,
    },
    /// The given ends aren't of the wanted kinds.
    NoEdge {
        lo: EdgeEnd,
        hi: EdgeEnd,
    },
    /// The flash or the walk over states of one phase stays open at a place.
    Stopped {
        at: u32,
        outcome: Outcome,
        units: u32,
    },
    /// The parameters break a range at a place.
    Refused {
        at: u32,
        fault: ParamFault,
    },
}
