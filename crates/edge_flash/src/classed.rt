//! What is said of a place.

use case_types::{EdgeEnd, Outcome, ParamFault};

/// What is said of a place of a search.
#[derive(Clone, Copy, Debug, PartialEq, Eq)]
pub enum Classed {
    /// What the feed is there.
    End(EdgeEnd),
    /// The flash or the walk over states of one phase stays open there, after so many units.
    Open { outcome: Outcome, units: u32 },
    /// The parameters break a range there.
    Param(ParamFault),
}
