//! The volume term, at most.

ghost use Rattle.std.specs.Prelude.{ℕ, ◌≡◌, ◌≤◌, ◌<◌, ◌^◌, ◌+◌, ◌*◌, pos, neg_ℤ, ◌≤ℤ◌, ◌*ℤ◌, unsigned_abs};
ghost use Rattle.log_laws.specs.Whole.{ceil_quotient, ceil_div};
ghost use Rattle.case_types.specs.Arithmetic.Numbers.{numbers_of};
ghost use Rattle.case_types.specs.Arithmetic.Bounds.{covolume_scale, volume_up};
ghost use Rattle.pr_params.specs.Packings.{ArePackingLogs};

use case_types::PackingLogs;
use pr_params::{LOG_E_HI, Params};

/// The volume term `log2(y) + log2(e)*B/y`, at most, in 2^-40.
pub fn volume(params: &Params, b: u128, logs: &PackingLogs) -> i128
    requires b { b ≤ 2 ^ 61 }
    requires some { 1 ≤ logs.now.packing }
    requires inside { logs.now.packing < 2 ^ 40 }
    ensures value { (y : ℕ) → ArePackingLogs (numbers_of params.now.case) y logs.now →
        result ≡ volume_up (numbers_of params.now.case) (pos b) y }
    ensures small { unsigned_abs result ≤ 2 ^ 87 }
    ensures at_half { ArePackingLogs (numbers_of params.now.case) (2 ^ 39) logs.now → unsigned_abs result ≤ 2 ^ 47 + 2 ^ 40 }
    ensures not_deep { neg_ℤ (pos (2 ^ 47)) ≤ℤ result }
{
    logs.packing_high + push(params, b, logs.packing) as i128
}

/// The co-volume's part of it, `log2(e)*B/y`.
fn push(params: &Params, b: u128, y: u64) -> u128
    requires b { b ≤ 2 ^ 61 }
    requires some { 1 ≤ y }
    requires inside { y < 2 ^ 40 }
    ensures value { pos result ≡ ceil_div ((numbers_of params.now.case).log_e.hi *ℤ pos b)
        (pos y *ℤ pos (covolume_scale (numbers_of params.now.case))) }
    ensures small { result ≤ 2 ^ 86 }
    ensures at_half { y ≡ 2 ^ 39 → result ≤ 2 ^ 47 }
{
    raised(stretched(b), params.scaled(y))
}

/// The logarithm of e times a co-volume.
fn stretched(b: u128) -> u128
    requires { b ≤ 2 ^ 61 }
    ensures value { result ≡ LOG_E_HI * b }
    ensures small { result ≤ 2 ^ 102 }
{
    LOG_E_HI * b
}

/// A quotient, rounded up.
fn raised(x: u128, d: u128) -> u128
    requires x { x ≤ 2 ^ 102 }
    requires low { 2 ^ 16 ≤ d }
    requires high { d ≤ 2 ^ 85 }
    ensures value { result ≡ ceil_quotient x d }
    ensures small { result ≤ 2 ^ 86 }
    ensures sharp { 2 ^ 55 ≤ d → result ≤ 2 ^ 47 }
{
    x.div_ceil(d)
}
