//! The first test of a head that breaks.

/// The first test of a head that breaks, beside its form.
#[derive(Clone, Copy, Debug, PartialEq, Eq)]
pub enum Broken {
    /// The parameters of the case are refused, or a pair of ends isn't that of the case.
    Params,
    /// The parts of this component, from 1, don't add up to its part of the feed.
    Balance(u8),
    /// The energy isn't that of the split.
    Energy,
    /// The gap isn't the energy, less the plane at the feed, less the low.
    Gap,
}
