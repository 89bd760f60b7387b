//! Rows that name components by their places.

/// The interaction of two components. They are named by their places among the components, from 1.
#[derive(Clone, Copy, Debug, PartialEq, Eq)]
pub struct PairRow {
    pub i: u32,
    pub j: u32,
    /// The interaction in 1e-4.
    pub k: i32,
}

/// The heat capacity of a component. It is named by its place among the components, from 1.
#[derive(Clone, Copy, Debug, PartialEq, Eq)]
pub struct CpRow {
    pub i: u32,
    /// The coefficients of a cubic in the temperature over 1000 K, the constant first, in 1e-3 J/(mol K).
    pub cp: [i32; 4],
}
