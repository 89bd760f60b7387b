//! Logarithms to the base 2 of whole numbers and fractions, enclosed by repeated squaring.
//!
//! A mantissa `m` from 2^61 to below 2^62 stands for `m / 2^61`, from 1 to below 2. Each squaring gives one binary
//! digit of its logarithm: the digit is 1 where the square is 2 or more, and then the square is halved. Rounded down at
//! every step the digits are a lower end of the logarithm, rounded up an upper end. No real number is ever formed: what
//! the ends bound is said by inequalities of whole powers.
#![tactic(auto)]

mod digits;
mod ends;
mod powers;
mod sources;
mod store;
#[cfg(test)]
mod tests;

pub use digits::{log2_down, log2_up};
pub use ends::{log2_hi, log2_lo, log2e};
pub use powers::exp2_near;
pub use sources::{Logarithms, log2_iv};
pub use store::LogStore;
