//! Arithmetic of intervals in 2^-40: there is no result where an end would have size 2^61 or more.

ghost use Rattle.std.specs.Prelude.{◌≡◌, ◌↔◌, IsTrue, pos};
ghost use Rattle.log_laws.specs.Interval.{ends_of};
ghost use Rattle.slope_form.specs.Arithmetic.{sum_of_ends, difference_of_ends, product_of_ends, quotient_of_ends, log_of_ends, ends_if};

use fix_interval::{cap, div_ends, mul_ends};
use log_enclose::Logarithms;
use log_laws::Iv;

/// The interval of 0 alone.
const ZERO: Iv = Iv { lo: 0, hi: 0 };

/// The interval of the sums of a number of `a` and a number of `b`, in 2^-40; `None` where an end has size 2^61 or more.
pub fn sum(a: Iv, b: Iv) -> Option<Iv>
    ensures { ends_if result ≡ sum_of_ends (ends_of a) (ends_of b) }
{
    cap(a.lo + b.lo, a.hi + b.hi)
}

/// The interval of the differences of a number of `a` and a number of `b`, in 2^-40; `None` where an end has size 2^61 or more.
pub fn difference(a: Iv, b: Iv) -> Option<Iv>
    ensures { ends_if result ≡ difference_of_ends (ends_of a) (ends_of b) }
{
    cap(a.lo - b.hi, a.hi - b.lo)
}

/// Whether the interval holds 0 alone.
fn is_zero(a: Iv) -> bool
    ensures { IsTrue result ↔ ((a.lo ≡ pos 0) × (a.hi ≡ pos 0)) }
{
    a.lo == 0 && a.hi == 0
}

/// The interval of the products of a number of `a` and a number of `b`, in 2^-40 and rounded outward; `None` where an end has
/// size 2^61 or more.
pub fn product(a: Iv, b: Iv) -> Option<Iv>
    ensures { ends_if result ≡ product_of_ends (ends_of a) (ends_of b) }
{
    if is_zero(a) || is_zero(b) {
        return Some(ZERO);
    }
    let (lo, hi) = mul_ends(a, b, 40);
    cap(lo, hi)
}

/// The interval of the quotients of a number of `a` by a number of `b`, in 2^-40 and rounded outward; `None` where `b` begins
/// below 1, or an end has size 2^61 or more.
pub fn quotient(a: Iv, b: Iv) -> Option<Iv>
    ensures { ends_if result ≡ quotient_of_ends (ends_of a) (ends_of b) }
{
    if b.lo < 1 {
        return None;
    }
    if is_zero(a) {
        return Some(ZERO);
    }
    let (lo, hi) = div_ends(a, b, 40);
    cap(lo, hi)
}

/// The interval of the logarithms to the base 2 of the numbers of `a`, in 2^-40 and rounded outward; `None` where `a` begins
/// below 1.
pub fn logarithm(logs: Logarithms<'_>, a: Iv) -> Option<Iv>
    ensures { ends_if result ≡ log_of_ends (ends_of a) }
{
    if a.lo < 1 {
        return None;
    }
    let log = logs.of(a, 40);
    cap(log.lo, log.hi)
}
