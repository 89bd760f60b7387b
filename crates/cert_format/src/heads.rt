//! What a certificate states before its letters.

use case_types::{Case, PAIRS, Plane, SLOTS, Split};
use log_laws::Iv;

/// The case of a certificate, and the pairs of ends that stand for its roots and for log2 e.
///
/// Entries of components that aren't live have no meaning.
#[derive(Clone, Copy, Debug, PartialEq, Eq)]
pub struct CertParams {
    pub case: Case,
    /// The root of 2, in 2^-60.
    pub two: Iv,
    /// The logarithm of e to the base 2, in 2^-40.
    pub e: Iv,
    /// The roots of T/Tc, in 2^-48.
    pub t: [Iv; SLOTS],
    /// The roots of the products of two critical pressures, in 2^-32 Pa, in the order 12, 13, 14, 23, 24, 34.
    pub q: [Iv; PAIRS],
}

/// What a certificate states before its letters. Energies are per mole of feed, in 2^-40 bit.
#[derive(Drop)]
pub struct Head {
    /// 1, or 2 where the text says the edition.
    pub version: u8,
    pub params: CertParams,
    pub split: Split,
    /// The energy of the split, at most.
    pub u: i128,
    pub plane: Plane,
    /// No leaf of the tree has a lower low over the plane.
    pub low: i128,
    /// The energy of the split, less the plane at the feed, less `low`.
    pub gap: i128,
    /// How many letters the tree has.
    pub letters: u32,
}
