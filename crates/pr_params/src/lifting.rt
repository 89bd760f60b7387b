//! The range of the reduced co-volumes, and how many bits they are raised by.

ghost use Rattle.std.specs.Prelude.{◌≡◌, ◌≤◌, ◌<◌, pos, neg_ℤ, ◌≤ℤ◌};
ghost use Rattle.log_laws.specs.Sums.{all_below};
ghost use Rattle.case_types.specs.Energy.Components.{critical_temperature, critical_pressure, acentric_factor};
ghost use Rattle.case_types.specs.Arithmetic.Faults.{covolumes_in_range, covolumes_are_near, is_tiny, is_near};
ghost use Rattle.case_types.specs.Arithmetic.Numbers.{lift_of, fits_lifted};

use crate::covolumes::{covolume_den, covolume_num};
use case_types::{Case, Row};

/// A live component of a case.
pub fn row_at(case: &Case, i: usize) -> Row
    requires { i < case.now.n }
    ensures tc { result.tc ≡ critical_temperature case.now i }
    ensures pc { result.pc ≡ critical_pressure case.now i }
    ensures w { result.w ≡ acentric_factor case.now i }
    ensures tc_range { (5000 ≤ result.tc) × (result.tc ≤ 1500000) }
    ensures pc_range { (100000 ≤ result.pc) × (result.pc ≤ 50000000) }
    ensures w_range { (neg_ℤ (pos 5000) ≤ℤ result.w) × (result.w ≤ℤ pos 15000) }
{
    case.rows[i]
}

/// The largest reduced co-volume is between 2^-24 and 32.
pub fn are_in_range(case: &Case) -> bool
    ensures { result ≡ covolumes_in_range case.now }
{
    all_fit(case, 0) && !all_are_tiny(case)
}

/// No reduced co-volume is above 1024 times another.
pub fn are_near(case: &Case) -> bool
    ensures { result ≡ covolumes_are_near case.now }
{
    for i in 0..case.n as usize {
        if !all_are_near(case, i) {
            return false;
        }
    }
    true
}

/// No reduced co-volume is above 1024 times that of a component.
fn all_are_near(case: &Case, i: usize) -> bool
    requires { i < case.now.n }
    ensures { result ≡ all_below case.now.n (is_near case.now i) }
{
    for j in 0..case.n as usize {
        if !near(case, i, j) {
            return false;
        }
    }
    true
}

/// The reduced co-volume of the second component is at most 1024 times that of the first.
fn near(case: &Case, i: usize, j: usize) -> bool
    requires live { i < case.now.n }
    requires other_live { j < case.now.n }
    ensures { result ≡ is_near case.now i j }
{
    let row = row_at(case, i);
    let other = row_at(case, j);
    other.tc as u64 * row.pc as u64 <= row.tc as u64 * other.pc as u64 * 1024
}

/// Every reduced co-volume is below 2^-24.
fn all_are_tiny(case: &Case) -> bool
    ensures { result ≡ all_below case.now.n (is_tiny case.now) }
{
    for i in 0..case.n as usize {
        if !tiny(case, i) {
            return false;
        }
    }
    true
}

/// The reduced co-volume of a component is below 2^-24.
fn tiny(case: &Case, i: usize) -> bool
    requires { i < case.now.n }
    ensures { result ≡ is_tiny case.now i }
{
    covolume_num(case, i) * (1 << 24) < covolume_den(case, i)
}

/// Every reduced co-volume, raised by `lift` bits, is at most 32.
fn all_fit(case: &Case, lift: u32) -> bool
    requires { lift ≤ 29 }
    ensures { result ≡ all_below case.now.n (fits_lifted case.now lift) }
{
    for i in 0..case.n as usize {
        if !fits(case, lift, i) {
            return false;
        }
    }
    true
}

/// The reduced co-volume of a component, raised by `lift` bits, is at most 32.
fn fits(case: &Case, lift: u32, i: usize) -> bool
    requires live { i < case.now.n }
    requires few { lift ≤ 29 }
    ensures { result ≡ fits_lifted case.now lift i }
{
    covolume_num(case, i) * (1 << lift) <= 32 * covolume_den(case, i)
}

/// How many bits all reduced co-volumes can be raised by and stay at most 32, but 29 bits at most.
pub fn common_lift(case: &Case) -> u32
    ensures value { result ≡ lift_of case.now }
    ensures few { result ≤ 29 }
{
    let mut lift = 29;
    while lift > 0 {
        if all_fit(case, lift) {
            return lift;
        }
        lift -= 1;
    }
    0
}
