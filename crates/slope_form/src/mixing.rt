//! x log x, of a fraction x.

ghost use Rattle.std.specs.Prelude.{◌≡◌, ◌≤◌, ◌<◌, ◌^◌, ◌*ℤ◌, pos, unsigned_abs, Some, IfSome};
ghost use Rattle.log_laws.specs.LogE.{log_e_ends};
ghost use Rattle.log_laws.specs.Whole.{floor_over};
ghost use Rattle.log_laws.specs.Interval.{ends_of};
ghost use Rattle.slope_form.specs.Arithmetic.{ends_if, both, sum_of_ends, product_of_ends};
ghost use Rattle.slope_form.specs.Forms.{bend_of, x_log_x_ends, two_if};
ghost use Rattle.slope_form.specs.Laws.{KeepsXLogX};

use crate::arithmetic::{logarithm, product, sum};
use fix_interval::cap;
use log_enclose::Logarithms;
use log_laws::Iv;

/// An end times a fraction in 2^-40.
fn times(end: i128, fraction: u64) -> i128
    requires end { unsigned_abs end < 2 ^ 62 }
    requires fraction { fraction ≤ 2 ^ 40 }
    ensures value { result ≡ end *ℤ pos fraction }
    ensures small { unsigned_abs result < 2 ^ 103 }
{
    end * fraction as i128
}

/// A number over m, rounded down.
fn floor_quotient(z: i128, m: u64) -> i128
    requires z { unsigned_abs z < 2 ^ 103 }
    requires m { 1 ≤ m }
    ensures value { result ≡ floor_over z m }
    ensures small { unsigned_abs result < 2 ^ 104 }
{
    z.div_euclid(m as i128)
}

/// How x log (x/m) rises beside log m, for x from `a` to `b`, in 2^-40: the logarithm `e` of Euler's number times x over m.
fn bend(a: u64, b: u64, m: u64, e: Iv) -> Option<Iv>
    requires some { 1 ≤ m }
    requires a_fits { a ≤ 2 ^ 40 }
    requires b_fits { b ≤ 2 ^ 40 }
    ensures { ends_if result ≡ bend_of a b m (ends_of e) }
{
    let lo = floor_quotient(times(e.lo, a), m);
    let hi = -floor_quotient(-times(e.hi, b), m);
    cap(lo, hi)
}

/// The number in `point` times its logarithm, where that is there.
fn value_at(point: Iv, log: Option<Iv>) -> Option<Iv>
    ensures { ends_if result ≡ both product_of_ends (Some (ends_of point)) (ends_if log) }
{
    product(point, log?)
}

/// The logarithm and what it rises by, where both are there.
fn slope_at(log: Option<Iv>, bend: Option<Iv>) -> Option<Iv>
    ensures { ends_if result ≡ both sum_of_ends (ends_if log) (ends_if bend) }
{
    sum(log?, bend?)
}

/// The value and the slope, where both are there.
fn two(at: Option<Iv>, by: Option<Iv>) -> Option<(Iv, Iv)>
    ensures { two_if result ≡ both (λ v w. Some (v, w)) (ends_if at) (ends_if by) }
{
    Some((at?, by?))
}

/// The value of x log x at `m`, and its slope for x from `a` to `b` around `m`, all in 2^-40 and with the logarithm to the base 2;
/// at 0 x log x is 0. `None` where `m` is 0, or where an end of the slope or of its parts has size 2^61 or more. The logarithm of
/// Euler's number is `e`.
pub fn xlogx(logs: Logarithms<'_>, a: u64, b: u64, m: u64, e: Iv) -> Option<(Iv, Iv)>
    requires e { ends_of e ≡ log_e_ends }
    requires low { a ≤ m }
    requires high { m ≤ b }
    requires top { b ≤ 2 ^ 40 }
    ensures value { two_if result ≡ x_log_x_ends a b m (ends_of e) }
    ensures holds { IfSome result (λ r. KeepsXLogX a b m (ends_of r.0) (ends_of r.1)) }
{
    if m == 0 {
        return None;
    }
    let point = Iv {
        lo: m as i128,
        hi: m as i128,
    };
    let log = logarithm(logs, point);
    two(value_at(point, log), slope_at(log, bend(a, b, m, e)))
}
