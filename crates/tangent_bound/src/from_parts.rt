//! The energy over a box and a range of packings, at least, from what is kept of both.

ghost use Rattle.std.specs.Prelude.{ℕ, ◌≡◌, ◌≤◌, ◌<◌, ◌^◌, ◌+◌, unsigned_abs};
ghost use Rattle.log_laws.specs.Squaring.{log_up};
ghost use Rattle.case_types.specs.Arithmetic.Numbers.{numbers_of};
ghost use Rattle.case_types.specs.Arithmetic.Bounds.{Box, energy_low};
ghost use Rattle.case_types.specs.Arithmetic.Bounds.{box_of};
ghost use Rattle.pr_params.specs.Packings.{ArePackingLogs};
ghost use Rattle.tangent_bound.specs.Parts.{IsMixLow};

use crate::mixes::entropy;
use crate::volumes::{falls_to, rises_from, volume, where_flat};
use case_types::{BoxX, MixLow, PackingLogs};
use log_enclose::Logarithms;
use pr_params::{Params, attraction_term_high, b_range, energy_of_terms, g_hi};

/// What a lower bound of the energy has of the box.
pub fn mix_low(params: &Params, logs: Logarithms<'_>, x: &BoxX) -> MixLow
    ensures { IsMixLow (numbers_of params.now.case) (box_of x.now) result }
{
    let b = b_range(params, x);
    let covolume = b.lo as u128;
    let flat = falls_to(params, covolume);
    MixLow {
        mixing: entropy(logs, params.case.n, x),
        covolume,
        log_covolume: log_covolume(params, logs, b.hi as u128),
        ratio: g_hi(params, x),
        flat,
        steep: rises_from(params, covolume),
        volume_flat: where_flat(logs, flat),
    }
}

/// The energy at every composition of a box and every packing from one to another is at least this, in 2^-40 bit, from what
/// is kept of the box and the logarithms at both packings.
pub fn low_of_parts(params: &Params, mix: &MixLow, from: &PackingLogs, to: &PackingLogs) -> i128
    requires room { from.now.packing < 2 ^ 40 }
    requires some { 1 ≤ to.now.packing }
    ensures value { (x : Box) (yl yh : ℕ) →
        IsMixLow (numbers_of params.now.case) x mix.now →
        ArePackingLogs (numbers_of params.now.case) yl from.now →
        ArePackingLogs (numbers_of params.now.case) yh to.now →
        result ≡ energy_low (numbers_of params.now.case) x yl yh }
    ensures small { unsigned_abs result ≤ 2 ^ 106 }
{
    energy_of_terms(
        mix.mixing,
        volume(params, mix, from, to),
        mix.log_covolume,
        from.rest_high,
        attraction_term_high(mix.ratio, to),
    )
}

/// The logarithm of a co-volume, at most.
fn log_covolume(params: &Params, logs: Logarithms<'_>, b: u128) -> i128
    requires low { 2 ^ 49 ≤ b }
    requires high { b ≤ 2 ^ 61 }
    ensures value { result ≡ log_up b (56 + (numbers_of params.now.case).lift) }
    ensures small { unsigned_abs result ≤ 2 ^ 47 }
{
    logs.upper(b, 56 + params.raised_by())
}
