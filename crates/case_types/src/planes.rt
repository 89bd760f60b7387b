//! Tangent planes.

ghost use Rattle.std.specs.Prelude.{◌^◌, IsTrue};
ghost use Rattle.case_types.specs.Ranges.{is_each_below};

use crate::cases::SLOTS;

/// A tangent plane by its chemical potentials, in 2^-40 bit, each of size below 2^80.
#[derive(Clone, Copy, Debug, PartialEq, Eq)]
pub struct Plane {
    pub lam: [i128; SLOTS],
    pub ghost small: { IsTrue (is_each_below 4 lam (2 ^ 80)) },
}
