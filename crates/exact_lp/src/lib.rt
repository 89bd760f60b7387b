//! The linear program of a mixture, solved exactly: the cheapest mixture of columns that is the feed.
//!
//! A column is a grid point with its cost. The program asks for amounts of columns, none of them negative, that add up to the
//! feed at least cost. It is solved by the revised simplex method (Dantzig and Orchard-Hays 1954), with ties of ratios broken by
//! the least column (Bland 1977). A [`Basis`] has as many columns as there are live components, and some mixture of them is the
//! feed. [`start`] makes the first basis, of the pure columns; [`price`] names the column that enters, and [`pivot`] the place
//! that leaves; [`plane`] and [`amounts`] make the tangent plane and the split of a basis.
//!
//! Every number is exact: by Cramer's rule, amounts and slopes are determinants over the size of that of the basis. With fewer
//! than four components a basis is filled up by unit rows, so that determinants are always of four rows. Compositions are in
//! 2^-20 and costs in 2^-30 bit; determinants are of size at most 2^80 and sums of products below 2^126.
#![tactic(auto)]

mod frames;
mod normals;
mod pivoting;
mod planes;
mod points;
mod pricing;
#[cfg(test)]
mod solved;
#[cfg(test)]
mod solved_of_four;
mod splits;
#[cfg(test)]
mod tests;

pub use pivoting::pivot;
pub use planes::plane;
pub use points::{Basis, start};
pub use pricing::price;
pub use splits::{BasisWeights, amounts, weights};
