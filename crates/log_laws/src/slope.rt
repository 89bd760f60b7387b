//! The slope form.

use crate::iv::Iv;

/// A function of the fractions and the packing fraction over a cell, bounded about the cell's centre, in 2^-40.
///
/// From the centre to a point the function changes by the sum of slopes times steps, for some numbers between the ends of the
/// slopes. What a form says of a function is defined in `slope_form`.
#[derive(Clone, Copy, Debug, PartialEq, Eq)]
pub struct Slope {
    /// The value at the centre.
    pub at: Iv,
    /// The range over the cell.
    pub over: Iv,
    /// The slope for each of three free fractions, and for the packing fraction.
    pub by: [Iv; 4],
}
