//! The numbers of each component.

ghost use Rattle.std.specs.Prelude.{◌≡◌, ◌<◌};
ghost use Rattle.log_laws.specs.Interval.{ends_of};
ghost use Rattle.pr_params.specs.Entries.{temperature_entry, alpha_entry, covolume_entry, live_ends, filled, ends_of_all};

use crate::alphas::{alpha_root, kappa, temperature_root};
use crate::covolumes::{covolume, covolume_den, covolume_num};
use crate::lifted::Lifted;
use crate::lifting::row_at;
use crate::naturals::none;
use case_types::{Case, SLOTS};
use log_laws::Iv;

/// The roots of T/Tc and of alpha of each component, in 2^-48.
pub fn roots(case: &Case) -> ([Iv; SLOTS], [Iv; SLOTS])
    ensures temperatures { ends_of_all result.0 ≡ filled case.now.n (temperature_entry case.now) }
    ensures alphas { ends_of_all result.1 ≡ filled case.now.n (alpha_entry case.now) }
{
    let (first_t, first_m) = roots_or_none(case, 0);
    let (second_t, second_m) = roots_or_none(case, 1);
    let (third_t, third_m) = roots_or_none(case, 2);
    let (fourth_t, fourth_m) = roots_or_none(case, 3);
    (
        [first_t, second_t, third_t, fourth_t],
        [first_m, second_m, third_m, fourth_m],
    )
}

/// The roots of T/Tc and of alpha of a component, which are 0 where it isn't live.
fn roots_or_none(case: &Case, i: usize) -> (Iv, Iv)
    ensures temperature { ends_of result.0 ≡ live_ends case.now.n (temperature_entry case.now) i }
    ensures alpha { ends_of result.1 ≡ live_ends case.now.n (alpha_entry case.now) i }
{
    if i < case.n as usize {
        roots_of(case, i)
    } else {
        (none(), none())
    }
}

/// The roots of T/Tc and of alpha of a live component.
fn roots_of(case: &Case, i: usize) -> (Iv, Iv)
    requires { i < case.now.n }
    ensures temperature { ends_of result.0 ≡ temperature_entry case.now i }
    ensures alpha { ends_of result.1 ≡ alpha_entry case.now i }
{
    let row = row_at(case, i);
    let t = temperature_root(case.t, row.tc);
    (t, alpha_root(kappa(&row, case.edition), t))
}

impl Lifted {
    /// The reduced co-volume of each component, in `2^-(56+lift)`.
    pub fn covolumes(&self) -> [Iv; SLOTS]
        ensures { ends_of_all result ≡ filled self.now.case.n (covolume_entry self.now.case) }
    {
        [
            self.covolume_or_none(0),
            self.covolume_or_none(1),
            self.covolume_or_none(2),
            self.covolume_or_none(3),
        ]
    }

    /// The reduced co-volume of a component, which is 0 where it isn't live.
    fn covolume_or_none(&self, i: usize) -> Iv
        ensures { ends_of result ≡ live_ends self.now.case.n (covolume_entry self.now.case) i }
    {
        if i < self.case.n as usize {
            let num = covolume_num(&self.case, i);
            covolume(num, covolume_den(&self.case, i), self.lift)
        } else {
            none()
        }
    }
}
