//! Rachford and Rice's sum.

ghost use Rattle.std.specs.Prelude.{◌≡◌, ◌≤◌, ◌^◌, IsTrue, pos, ◌+ℤ◌, ◌*ℤ◌, ◌≤ℤ◌, unsigned_abs};
ghost use Rattle.log_laws.specs.Whole.{floor_div};
ghost use Rattle.rachford_rice.specs.Sum.{are_ratios, excess, rachford_rice, transfer};
ghost use Rattle.rachford_rice.specs.Shares.{NeverRises};

use case_types::{Case, SLOTS};

/// The sum of the live components never rises with the share of vapour.
pub fn sum_never_rises(case: &Case, k: &[u64; SLOTS])
    requires ratios { IsTrue (are_ratios case.now.n k.now) }
    ensures { NeverRises (rachford_rice case.now k.now) }
{}

/// The sum of `z*(K - 1) / (1 + V*(K - 1))` over the live components, each rounded down, in parts of the feed times 2^-20.
///
/// `k` are the ratios K in 2^-32, and `v` is the share V in 2^-20.
pub fn sum_at(case: &Case, k: &[u64; SLOTS], v: u32) -> i128
    requires ratios { IsTrue (are_ratios case.now.n k.now) }
    requires share { v ≤ 2 ^ 20 }
    ensures { result ≡ rachford_rice case.now k.now v }
{
    let mut sum = 0;
    for i in 0..case.n as usize {
        sum += transferred(case.z[i], k[i], v);
    }
    sum
}

/// What a component of `z` parts adds to the sum, at its ratio `k` in 2^-32 and the share `v` in 2^-20.
fn transferred(z: u32, k: u64, v: u32) -> i128
    requires parts { z ≤ 2 ^ 20 }
    requires some { 1 ≤ k }
    requires most { k ≤ 2 ^ 52 }
    requires share { v ≤ 2 ^ 20 }
    ensures value { result ≡ transfer z k v }
    ensures small { unsigned_abs result ≤ 2 ^ 112 }
{
    floor_quotient(scaled(z, excess_of(k)), dilution_of(excess_of(k), v))
}

/// `K - 1`, in 2^-32.
fn excess_of(k: u64) -> i64
    requires some { 1 ≤ k }
    requires most { k ≤ 2 ^ 52 }
    ensures value { result ≡ excess k }
    ensures low { pos 1 ≤ℤ (result +ℤ pos (2 ^ 32)) }
    ensures high { result ≤ℤ pos (2 ^ 52) }
{
    k as i64 - (1 << 32)
}

/// `z*(K - 1)` in 2^-72, from `K - 1` in 2^-32.
fn scaled(z: u32, excess: i64) -> i128
    requires parts { z ≤ 2 ^ 20 }
    requires excess { unsigned_abs excess ≤ 2 ^ 52 }
    ensures value { result ≡ pos z *ℤ excess *ℤ pos (2 ^ 40) }
    ensures small { unsigned_abs result ≤ 2 ^ 112 }
{
    z as i128 * excess as i128 * (1 << 40)
}

/// `1 + V*(K - 1)` in 2^-52, from `K - 1` in 2^-32 and V in 2^-20.
fn dilution_of(excess: i64, v: u32) -> i128
    requires low { pos 1 ≤ℤ (excess +ℤ pos (2 ^ 32)) }
    requires high { excess ≤ℤ pos (2 ^ 52) }
    requires share { v ≤ 2 ^ 20 }
    ensures value { result ≡ pos (2 ^ 52) +ℤ pos v *ℤ excess }
    ensures positive { pos 1 ≤ℤ result }
    ensures small { result ≤ℤ pos (2 ^ 73) }
{
    (1 << 52) + v as i128 * excess as i128
}

/// A number over a positive one, rounded down.
fn floor_quotient(z: i128, d: i128) -> i128
    requires z { unsigned_abs z ≤ 2 ^ 112 }
    requires d { pos 1 ≤ℤ d }
    ensures value { result ≡ floor_div z d }
    ensures small { unsigned_abs result ≤ 2 ^ 112 }
{
    z.div_euclid(d)
}
