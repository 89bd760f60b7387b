//! The packing fractions of the phases at a composition: roots of a cubic, found by their changes of sign.
//!
//! The equation of Peng and Robinson, times `b/RT`, says `B = y/(1-y) - G*y*y/(1+2*y-y*y)` of the packing fraction y, where B
//! is the reduced co-volume and G the reduced attraction over it. Cleared of its divisors it is a cubic in y, with up to three
//! roots.
#![tactic(auto)]

mod bends;
mod middles;
mod places;
mod pressures;
#[cfg(test)]
mod tests;

pub use places::packings;
