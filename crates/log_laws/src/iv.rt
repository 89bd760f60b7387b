//! The interval.

ghost use Rattle.std.specs.Prelude.{◌≤ℤ◌, ◌<◌, ◌^◌, unsigned_abs};

/// An interval of whole numbers, with ends in order and of size below 2^62.
///
/// At a scale `s` it stands for the numbers from `lo`/`s` to `hi`/`s`; the scale isn't kept.
#[derive(Clone, Copy, Debug, PartialEq, Eq)]
pub struct Iv {
    /// The lower end, a whole number over the scale.
    pub lo: i128,
    /// The upper end, a whole number over the scale.
    pub hi: i128,
    pub ghost ordered: { lo ≤ℤ hi },
    pub ghost lo_small: { unsigned_abs lo < 2 ^ 62 },
    pub ghost hi_small: { unsigned_abs hi < 2 ^ 62 },
}
