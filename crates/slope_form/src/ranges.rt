//! The low of a form over ranges of the steps.

ghost use Rattle.std.specs.Prelude.{◌≡◌, ◌≤◌, ◌^◌, unsigned_abs};
ghost use Rattle.log_laws.specs.Interval.{ends_of};
ghost use Rattle.slope_form.specs.Forms.{form_of};
ghost use Rattle.slope_form.specs.Laws.{KeepsLow};
ghost use Rattle.slope_form.specs.Meaning.{least_step, low_of};
ghost use Rattle.slope_form.specs.Ranges.{from_of, to_of};

use fix_interval::mul_ends;
use log_laws::{Iv, Slope};

/// The least change by one slope over a range of its step, in 2^-40 and rounded down.
fn least(by: Iv, step: Iv) -> i128
    ensures value { result ≡ least_step (ends_of by) step.lo step.hi }
    ensures small { unsigned_abs result ≤ 2 ^ 84 }
{
    mul_ends(by, step, 40).0
}

/// At least this, in 2^-40, where the step of each slope lies in its range: the value at the centre, and over each range the least
/// of the slope's ends times the step's, rounded down.
pub fn low(f: Slope, steps: [Iv; 4]) -> i128
    ensures value { result ≡ low_of (form_of f) (from_of steps) (to_of steps) }
    ensures holds { KeepsLow (form_of f) (from_of steps) (to_of steps) result }
    ensures small { unsigned_abs result ≤ 2 ^ 88 }
{
    let [f0, f1, f2, f3] = f.by;
    let [s0, s1, s2, s3] = steps;
    let changes = least(f0, s0) + least(f1, s1) + least(f2, s2) + least(f3, s3);
    f.at.lo + changes
}
