//! The cells of the search: boxes of compositions times ranges of packing fractions; the boxes of phases and of grid points; and
//! a tangent plane over a box.
//!
//! A cell bounds the free fractions, which are all but the last of `n` components, and the packing fraction. Edges 0, 1 and
//! 2 are the free fractions, in 2^-20, and edge 3 is the packing, in 2^-40. Where there are fewer than four components, the
//! edges of the others aren't looked at.
#![tactic(auto)]

mod boxes;
mod compositions;
mod edges;
mod fractions;
mod halves;
mod midpoints;
mod planes;
#[cfg(test)]
mod tests;

pub use boxes::{box_at, cell_box, misses, root};
pub use compositions::{moles, phase_box};
pub use edges::{PACKING, edge_to_halve, is_unit};
pub use halves::halve;
pub use midpoints::{middle_fractions, midpoint};
pub use planes::plane_hi;
