//! The ends of a search for an enthalpy, and what it answers.

use crate::answers::Outcome;
use crate::cases::ParamFault;
use crate::phases::Split;
use log_laws::Iv;

/// The enthalpy of the feed at one temperature, by the split of a certified flash.
#[derive(Drop)]
pub struct PhEnd {
    /// The temperature in mK.
    pub t: u32,
    /// The enthalpy of the split at least and at most, in mJ per mole of feed.
    pub h: Iv,
    /// The gap of the split in 2^-40 bit.
    pub gap: i128,
    /// The upper energy of the split per mole of feed, in 2^-40 bit.
    pub u: i128,
    pub split: Split,
}

/// What a search for an enthalpy comes to.
#[derive(Drop)]
pub enum PhAnswer {
    /// The enthalpy of the lower end lies below the target, that of the upper end above it.
    Bracket {
        lo: PhEnd,
        hi: PhEnd,
    },
    /// The enthalpy at this place may be the target.
    Met {
        at: PhEnd,
    },
    /// The enthalpies of the given ends don't lie on the two sides of the target.
    NoBracket {
        lo: PhEnd,
        hi: PhEnd,
    },
    /// The flash stays open at a temperature.
    Stopped {
        at: u32,
        outcome: Outcome,
        units: u32,
    },
    /// The parameters break a range at a temperature.
    Refused {
        at: u32,
        fault: ParamFault,
    },
}
