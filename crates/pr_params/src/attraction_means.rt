//! The mean attraction over a box.

ghost use Rattle.std.specs.Prelude.{◌≡◌, ◌≤◌, ◌<◌, ◌^◌, pos, ◌*ℤ◌, ◌≤ℤ◌};
ghost use Rattle.case_types.specs.Arithmetic.Numbers.{numbers_of};
ghost use Rattle.case_types.specs.Arithmetic.Bounds.{box_of};
ghost use Rattle.pr_params.specs.Rounding.{attraction_on, row_on};

use crate::bounds::Bound;
use crate::numbers::Params;
use crate::readers::attraction_of;
use case_types::BoxX;

/// The mean attraction on a side, in `2^-(49+lift)`.
pub fn attraction(params: &Params, x: &BoxX, bound: Bound) -> i128
    ensures value { result ≡ attraction_on bound (numbers_of params.now.case) (box_of x.now) }
    ensures low { pos 0 ≤ℤ result }
    ensures high { result ≤ℤ pos (2 ^ 66) }
{
    let mut sum = 0;
    for i in 0..params.case.n {
        sum += share(bound.fraction(x, i), row(params, x, bound, i));
    }
    bound.rounded(sum)
}

/// The mean attraction of a component with all, on a side.
fn row(params: &Params, x: &BoxX, bound: Bound, i: u8) -> i128
    requires { i < params.now.case.n }
    ensures value { result ≡ row_on bound (numbers_of params.now.case) (box_of x.now) i }
    ensures low { pos 0 ≤ℤ result }
    ensures high { result ≤ℤ pos (2 ^ 63) }
{
    let mut sum = 0;
    for j in 0..params.case.n {
        sum += share(bound.fraction(x, j), bound.end(attraction_of(params, i, j)));
    }
    bound.rounded(sum)
}

/// A fraction in 2^-40 of a number.
fn share(fraction: u64, number: i128) -> i128
    requires fraction { fraction ≤ 2 ^ 40 }
    requires low { pos 0 ≤ℤ number }
    requires high { number ≤ℤ pos (2 ^ 63) }
    ensures value { result ≡ pos fraction *ℤ number }
    ensures low { pos 0 ≤ℤ result }
    ensures high { result ≤ℤ pos (2 ^ 103) }
{
    fraction as i128 * number
}
