//! The ends of the root of 2 and of the logarithm of e. They are the same in every case.

/// The root of 2 at least, in 2^-60.
pub const ROOT_TWO_LO: u128 = 1_630_477_228_166_597_776;

/// The root of 2 at most, in 2^-60.
pub const ROOT_TWO_HI: u128 = 1_630_477_228_166_597_777;

/// The logarithm of e to the base 2 at least, in 2^-40.
pub const LOG_E_LO: u128 = 1_586_259_924_992;

/// The logarithm of e to the base 2 at most, in 2^-40.
pub const LOG_E_HI: u128 = 1_586_260_020_565;
