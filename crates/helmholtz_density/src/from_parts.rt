//! The energy at one packing, at most, from what is kept of a box and of the packing.

ghost use Rattle.std.specs.Prelude.{ℕ, ◌≡◌, ◌≤◌, ◌<◌, ◌^◌, ◌+◌, pos, neg_ℤ, ◌<ℤ◌, unsigned_abs};
ghost use Rattle.log_laws.specs.Squaring.{log_down};
ghost use Rattle.case_types.specs.Arithmetic.Numbers.{numbers_of};
ghost use Rattle.case_types.specs.Arithmetic.Bounds.{Box, energy_up};
ghost use Rattle.case_types.specs.Arithmetic.Bounds.{box_of};
ghost use Rattle.pr_params.specs.Packings.{ArePackingLogs};
ghost use Rattle.helmholtz_density.specs.Parts.{IsMixUp};

use crate::mixes::entropy;
use crate::volumes::volume;
use case_types::{BoxX, MixUp, PackingLogs};
use log_enclose::Logarithms;
use pr_params::{Params, attraction_term_low, b_range, energy_of_terms, g_lo};

/// What an upper bound of the energy has of the box.
pub fn mix_up(params: &Params, logs: Logarithms<'_>, x: &BoxX) -> MixUp
    ensures { IsMixUp (numbers_of params.now.case) (box_of x.now) result }
{
    let b = b_range(params, x);
    MixUp {
        mixing: entropy(logs, params.case.n, x),
        covolume: b.hi as u128,
        log_covolume: log_covolume(params, logs, b.lo as u128),
        ratio: g_lo(params, x),
    }
}

/// The energy at every composition of a box and at a packing is at most this, in 2^-40 bit, from what is kept of the box and
/// the logarithms at the packing.
pub fn up_of_parts(params: &Params, mix: &MixUp, logs: &PackingLogs) -> i128
    requires some { 1 ≤ logs.now.packing }
    requires inside { logs.now.packing < 2 ^ 40 }
    ensures value { (x : Box) (y : ℕ) →
        IsMixUp (numbers_of params.now.case) x mix.now →
        ArePackingLogs (numbers_of params.now.case) y logs.now →
        result ≡ energy_up (numbers_of params.now.case) x y }
    ensures small { unsigned_abs result ≤ 2 ^ 106 }
    ensures at_half { (x : Box) →
        IsMixUp (numbers_of params.now.case) x mix.now →
        ArePackingLogs (numbers_of params.now.case) (2 ^ 39) logs.now →
        unsigned_abs result < 2 ^ 49 }
    ensures not_deep { (y : ℕ) → ArePackingLogs (numbers_of params.now.case) y logs.now → neg_ℤ (pos (2 ^ 49)) <ℤ result }
{
    energy_of_terms(
        mix.mixing,
        volume(params, mix.covolume, logs),
        mix.log_covolume,
        logs.rest_low,
        attraction_term_low(mix.ratio, logs),
    )
}

/// The logarithm of a co-volume, at least.
fn log_covolume(params: &Params, logs: Logarithms<'_>, b: u128) -> i128
    requires low { 2 ^ 49 ≤ b }
    requires high { b ≤ 2 ^ 61 }
    ensures value { result ≡ log_down b (56 + (numbers_of params.now.case).lift) }
    ensures small { unsigned_abs result ≤ 2 ^ 46 }
{
    logs.lower(b, 56 + params.raised_by())
}
