//! Square roots: of a whole number, rounded down, and of a fraction, between the ends of an
//! interval at a scale.
#![tactic(auto)]

mod enclosure;
#[cfg(test)]
mod tests;
mod whole;

pub use enclosure::root_iv;
pub use whole::isqrt;
