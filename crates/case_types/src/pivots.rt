//! Pivots of the linear program.

/// A pivot: the column that enters the basis, and the place in the basis that leaves.
#[derive(Clone, Copy, Debug, PartialEq, Eq)]
pub struct Pivot {
    pub enter: u32,
    pub leave: u8,
}
