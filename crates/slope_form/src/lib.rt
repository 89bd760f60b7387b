//! Slope forms: a function of the fractions and the packing fraction over a cell, bounded about the cell's centre.
//!
//! A [`Slope`] has the value at the centre, the range over the cell, and a slope for each of three free fractions and for the
//! packing fraction, in 2^-40. It speaks of a log sum, or of a fraction as a log sum without terms: from the centre to a point
//! the log sum changes by the sum over the steps of each slope times its step, for some numbers between the slopes' ends. Each
//! operation gives its ends exactly, lower ends rounded down and upper ends up, and says in its clause `holds` that where its
//! operands bound log sums, its result bounds what the operation makes of them. A result is `None` where one of the intervals
//! that its formula needs has an end of size 2^61 or more, where a divisor isn't positive throughout its interval, or where the
//! argument of a logarithm isn't.
#![tactic(auto)]

mod arithmetic;
mod mixing;
mod operations;
mod ranges;
#[cfg(test)]
mod tests;

pub use arithmetic::{difference, logarithm, product, quotient, sum};
pub use log_laws::Slope;
pub use mixing::xlogx;
pub use operations::{add, constant, div, log2, mul, sub};
pub use ranges::low;
