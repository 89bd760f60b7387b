//! Slope forms of functions of the compositions, from a number for each component.

ghost use Rattle.std.specs.Prelude.{◌≡◌, ◌≤◌, ◌<◌};
ghost use Rattle.slope_form.specs.Arithmetic.{ends_if, both};
ghost use Rattle.slope_form.specs.Arithmetic.{sum_of_ends};
ghost use Rattle.slope_form.specs.Forms.{form_if};
ghost use Rattle.tangent_bound.specs.SlopeLows.{free_slope as free_slope_of, mix_form as mix_form_of, sum_of_all as sum_of_entries};
ghost use Rattle.tangent_bound.specs.SlopeParts.{entry};

use case_types::SLOTS;
use log_laws::{Iv, Slope};
use slope_form::{difference, sum};

/// Both ends 0.
pub const NOTHING: Iv = Iv { lo: 0, hi: 0 };

/// A number for each component, in 2^-40, where it is there.
pub type Entries = [Option<Iv>; SLOTS];

/// The sum of the first `n` numbers, from the left.
pub fn sum_of_all(n: u8, v: &Entries) -> Option<Iv>
    requires { n ≤ 4 }
    ensures { ends_if result ≡ sum_of_entries n (entry v.now) }
{
    let mut all = Some(NOTHING);
    for i in 0..n {
        all = sum_of_both(all, v[i as usize]);
    }
    all
}

/// The sum of two numbers, where both are there.
fn sum_of_both(a: Option<Iv>, b: Option<Iv>) -> Option<Iv>
    ensures { ends_if result ≡ both sum_of_ends (ends_if a) (ends_if b) }
{
    sum(a?, b?)
}

/// The form of a function of the compositions of `n` components, from its value in the middle, its range and the number of each
/// component: the slope in a free fraction is the number there less that of the last component.
pub fn mix_form(n: u8, at: Option<Iv>, over: Option<Iv>, v: &Entries) -> Option<Slope>
    requires one { 1 ≤ n }
    requires four { n ≤ 4 }
    ensures { form_if result ≡ mix_form_of n (ends_if at) (ends_if over) (entry v.now) }
{
    Some(Slope {
        at: at?,
        over: over?,
        by: [
            free_slope(n, v, 0)?,
            free_slope(n, v, 1)?,
            free_slope(n, v, 2)?,
            NOTHING,
        ],
    })
}

/// The slope in a fraction, and 0 where it isn't free.
fn free_slope(n: u8, v: &Entries, j: u8) -> Option<Iv>
    requires one { 1 ≤ n }
    requires four { n ≤ 4 }
    requires free { j < 3 }
    ensures { ends_if result ≡ free_slope_of n (entry v.now) j }
{
    if j < n - 1 {
        difference(v[j as usize]?, v[(n - 1) as usize]?)
    } else {
        Some(NOTHING)
    }
}
