//! The numbers of a case.

ghost use Rattle.std.specs.Prelude.{◌≡◌, None};
ghost use Rattle.case_types.specs.Arithmetic.Faults.{fault_of};
ghost use Rattle.case_types.specs.Arithmetic.Numbers.{numbers_of, enclosures_of};
ghost use Rattle.case_types.specs.Energy.Printed.{enclosures_in};
ghost use Rattle.pr_params.specs.Held.{numbers_in};

use case_types::{Case, PAIRS, SLOTS};
use log_laws::Iv;

/// A case with its numbers. They are those of the definitions, and the case breaks no range of the parameters.
///
/// Entries of components that aren't live are [0, 0].
#[derive(Clone, Copy, Debug, PartialEq, Eq)]
pub struct Params {
    pub case: Case,
    /// How many bits `b`, `a` and `h` are raised by.
    pub lift: u32,
    /// The root of 2, in 2^-60.
    pub two: Iv,
    /// The logarithm of e to the base 2, in 2^-40.
    pub e: Iv,
    /// The roots of T/Tc, in 2^-48.
    pub t: [Iv; SLOTS],
    /// The roots of the products of two critical pressures, in 2^-32, in the order 12, 13, 14, 23, 24, 34.
    pub q: [Iv; PAIRS],
    /// The roots of alpha, in 2^-48.
    pub m: [Iv; SLOTS],
    /// The reduced co-volumes, in 2^-(56+lift).
    pub b: [Iv; SLOTS],
    /// The reduced attractions of pairs, in 2^-(49+lift).
    pub a: [[Iv; SLOTS]; SLOTS],
    /// The reduced attractions without alpha, in 2^-(47+lift).
    pub h: [[Iv; SLOTS]; SLOTS],
    /// The greatest attraction over a co-volume, in 2^-40.
    pub rho: i128,
    pub ghost right: { numbers_in case.n lift two e m b h a rho ≡ numbers_of case },
    pub ghost printed: { enclosures_in case.n two e t q ≡ enclosures_of case },
    pub ghost accepted: { fault_of case ≡ None },
}
