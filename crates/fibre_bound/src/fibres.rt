//! What a walk over the states of the feed in one phase comes to.

/// Bounds of the energy of the feed in one phase, in 2^-40 bit for a mole.
#[derive(Clone, Copy, Debug, PartialEq, Eq)]
pub struct Fibre {
    /// The packing fraction of a state, in 2^-40.
    pub packing: u64,
    /// The state there has at most this energy.
    pub up: i128,
    /// Every state has at least this energy.
    pub low: i128,
    pub end: FibreEnd,
}

/// How a walk over packing fractions ends.
#[derive(Clone, Copy, Debug, PartialEq, Eq)]
pub enum FibreEnd {
    /// Every cell is cleared: the two bounds are near one another.
    Clear,
    /// A unit was wanted and none was left.
    Spent,
    /// The cell from this packing fraction, in 2^-40, has one unit of the grid and can't be cleared.
    Grain(u64),
}
