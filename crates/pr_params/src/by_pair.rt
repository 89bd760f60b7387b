//! The reduced attractions of pairs of components, without the roots of alpha.

ghost use Rattle.std.specs.Prelude.{◌≡◌, ◌<◌, pos, neg_ℤ, ◌≤ℤ◌};
ghost use Rattle.case_types.specs.Energy.Components.{interaction};
ghost use Rattle.log_laws.specs.Interval.{ends_of};
ghost use Rattle.pr_params.specs.Entries.{bare_entry, live_pair, filled_table, four, ends_of_all, ends_of_table};

use crate::attractions::{bare_attraction, cohesion_den, cohesion_num};
use crate::lifted::Lifted;
use crate::lifting::row_at;
use crate::naturals::{natural_ends, none};
use case_types::{Case, SLOTS};
use log_laws::Iv;

/// The interaction of two live components, in 1e-4.
fn interaction_of(case: &Case, i: usize, j: usize) -> i32
    requires live { i < case.now.n }
    requires other_live { j < case.now.n }
    ensures value { result ≡ interaction case.now i j }
    ensures low { neg_ℤ (pos 5000) ≤ℤ result }
    ensures high { result ≤ℤ pos 5000 }
{
    let row = case.k[i];
    row[j]
}

impl Lifted {
    /// The reduced attractions of all pairs without alpha, in `2^-(47+lift)`.
    pub fn bare_attractions(&self) -> [[Iv; SLOTS]; SLOTS]
        ensures { ends_of_table result ≡ filled_table self.now.case.n (bare_entry self.now.case) }
    {
        [
            self.bare_row(0),
            self.bare_row(1),
            self.bare_row(2),
            self.bare_row(3),
        ]
    }

    /// The reduced attractions without alpha of a component with each, in `2^-(47+lift)`.
    fn bare_row(&self, i: usize) -> [Iv; SLOTS]
        ensures { ends_of_all result ≡ four (live_pair self.now.case.n (bare_entry self.now.case) i) }
    {
        [
            self.bare_or_none(i, 0),
            self.bare_or_none(i, 1),
            self.bare_or_none(i, 2),
            self.bare_or_none(i, 3),
        ]
    }

    /// The reduced attraction of a pair without alpha, which is 0 where a component isn't live.
    fn bare_or_none(&self, i: usize, j: usize) -> Iv
        ensures { ends_of result ≡ live_pair self.now.case.n (bare_entry self.now.case) i j }
    {
        let n = self.case.n as usize;
        if i < n && j < n {
            self.bare(i, j)
        } else {
            none()
        }
    }

    /// The reduced attraction of a pair without alpha, in `2^-(47+lift)`.
    fn bare(&self, i: usize, j: usize) -> Iv
        requires live { i < self.now.case.n }
        requires other_live { j < self.now.case.n }
        ensures { ends_of result ≡ bare_entry self.now.case i j }
    {
        let case = &self.case;
        let k = interaction_of(case, i, j);
        let num = cohesion_num(k, case.p, row_at(case, i).tc, row_at(case, j).tc);
        let den = cohesion_den(case.t);
        let (q_lo, q_hi) = natural_ends(self.pressure_root_of(i, j));
        bare_attraction(num, den * q_lo, den * q_hi, self.lift)
    }
}
