//! The reduced attractions of pairs of components, and their range.

ghost use Rattle.std.specs.Prelude.{◌≡◌, ◌≤◌, ◌<◌, ◌^◌, pos, IsTrue, IfOk, IfErr, Some, None};
ghost use Rattle.log_laws.specs.Sums.{greatest_below};
ghost use Rattle.case_types.specs.Arithmetic.Faults.{fault_of, covolumes_in_range, first_below, alpha_fault, attraction_fault};
ghost use Rattle.case_types.specs.Arithmetic.Numbers.{numbers_of};
ghost use Rattle.log_laws.specs.Interval.{ends, ends_of};
ghost use Rattle.pr_params.specs.Entries.{alpha_entry, covolume_entry, bare_entry, attraction_entry, ratio_entry, live_pair, filled, filled_table, four, ends_of_all, ends_of_table};

use crate::attractions::{attraction_ceil, attraction_floor, ratio_of};
use crate::naturals::{interval, natural_ends, none};
use case_types::{Case, ParamFault, SLOTS};
use log_laws::Iv;

/// What the attractions of a case are made of. The co-volumes and the roots of alpha are in their ranges.
#[derive(Clone, Copy)]
pub struct Bases {
    pub case: Case,
    /// The roots of alpha, in 2^-48.
    pub m: [Iv; SLOTS],
    /// The reduced co-volumes, in `2^-(56+lift)`.
    pub b: [Iv; SLOTS],
    /// The reduced attractions without alpha, in `2^-(47+lift)`.
    pub h: [[Iv; SLOTS]; SLOTS],
    pub ghost range: { IsTrue (covolumes_in_range case) },
    pub ghost alphas: { ends_of_all m ≡ filled case.n (alpha_entry case) },
    pub ghost large: { first_below case.n (alpha_fault (numbers_of case)) ≡ None },
    pub ghost covolumes: { ends_of_all b ≡ filled case.n (covolume_entry case) },
    pub ghost bares: { ends_of_table h ≡ filled_table case.n (bare_entry case) },
}

/// The first root of alpha that may be below 2^-10 is refused.
pub fn check_alphas(case: &Case, m: &[Iv; SLOTS]) -> Result<(), ParamFault>
    requires { ends_of_all m.now ≡ filled case.now.n (alpha_entry case.now) }
    ensures ok { IfOk result (λ _. first_below case.now.n (alpha_fault (numbers_of case.now)) ≡ None) }
    ensures err { IfErr result (λ f. first_below case.now.n (alpha_fault (numbers_of case.now)) ≡ Some f) }
{
    for i in 0..case.n as usize {
        if m[i].lo < 1 << 38 {
            return Err(ParamFault::MRange(i as u8 + 1));
        }
    }
    Ok(())
}

impl Bases {
    /// The ends of the root of alpha of a component, in 2^-48.
    fn alpha(&self, i: usize) -> (u128, u128)
        requires { i < self.now.case.n }
        ensures ends { ends (pos result.0) (pos result.1) ≡ alpha_entry self.now.case i }
        ensures ordered { result.0 ≤ result.1 }
        ensures small { result.1 ≤ 2 ^ 56 }
    {
        natural_ends(self.m[i])
    }

    /// The ends of the reduced attraction of a pair without alpha, in `2^-(47+lift)`.
    fn bare(&self, i: usize, j: usize) -> (u128, u128)
        requires live { i < self.now.case.n }
        requires other_live { j < self.now.case.n }
        ensures ends { ends (pos result.0) (pos result.1) ≡ bare_entry self.now.case i j }
        ensures ordered { result.0 ≤ result.1 }
        ensures small { result.1 ≤ 2 ^ 61 }
    {
        match self.h.get(i) {
            Some(row) => natural_ends(row[j]),
            None => (0, 0),
        }
    }

    /// The ends of the reduced attraction of a pair, in `2^-(49+lift)`.
    fn attraction(&self, i: usize, j: usize) -> (u128, u128)
        requires live { i < self.now.case.n }
        requires other_live { j < self.now.case.n }
        ensures ends { ends (pos result.0) (pos result.1) ≡ attraction_entry self.now.case i j }
        ensures ordered { result.0 ≤ result.1 }
    {
        let (bare_lo, bare_hi) = self.bare(i, j);
        let (own_lo, own_hi) = self.alpha(i);
        let (other_lo, other_hi) = self.alpha(j);
        (
            attraction_floor(bare_lo, own_lo, other_lo),
            attraction_ceil(bare_hi, own_hi, other_hi),
        )
    }

    /// The reduced co-volume of a component at least, in `2^-(56+lift)`.
    fn covolume_lo(&self, i: usize) -> u128
        requires { i < self.now.case.n }
        ensures value { pos result ≡ (covolume_entry self.now.case i).lo }
        ensures positive { 1 ≤ result }
        ensures small { result < 2 ^ 62 }
    {
        let (lo, _) = natural_ends(self.b[i]);
        lo
    }

    /// The first attraction that may be above 128 times the lesser reduced co-volume is refused.
    pub fn check_attractions(&self) -> Result<(), ParamFault>
        ensures ok { IfOk result (λ _. first_below self.now.case.n (λ i. first_below self.now.case.n (attraction_fault (numbers_of self.now.case) i)) ≡ None) }
        ensures err { IfErr result (λ f. first_below self.now.case.n (λ i. first_below self.now.case.n (attraction_fault (numbers_of self.now.case) i)) ≡ Some f) }
    {
        for i in 0..self.case.n as usize {
            self.check_row(i)?;
        }
        Ok(())
    }

    /// The same for the attractions of a component with itself and with those after it.
    fn check_row(&self, i: usize) -> Result<(), ParamFault>
        requires { i < self.now.case.n }
        ensures ok { IfOk result (λ _. first_below self.now.case.n (attraction_fault (numbers_of self.now.case) i) ≡ None) }
        ensures err { IfErr result (λ f. first_below self.now.case.n (attraction_fault (numbers_of self.now.case) i) ≡ Some f) }
    {
        for j in i..self.case.n as usize {
            let (_, hi) = self.attraction(i, j);
            if hi > self.covolume_lo(i).min(self.covolume_lo(j)) {
                return Err(ParamFault::ARange(i as u8 + 1, j as u8 + 1));
            }
        }
        Ok(())
    }

    /// The reduced attractions of all pairs, in `2^-(49+lift)`.
    pub fn attractions(&self) -> [[Iv; SLOTS]; SLOTS]
        requires { fault_of self.now.case ≡ None }
        ensures { ends_of_table result ≡ filled_table self.now.case.n (attraction_entry self.now.case) }
    {
        [
            self.attraction_row(0),
            self.attraction_row(1),
            self.attraction_row(2),
            self.attraction_row(3),
        ]
    }

    /// The reduced attractions of a component with each, in `2^-(49+lift)`.
    fn attraction_row(&self, i: usize) -> [Iv; SLOTS]
        requires { fault_of self.now.case ≡ None }
        ensures { ends_of_all result ≡ four (live_pair self.now.case.n (attraction_entry self.now.case) i) }
    {
        [
            self.attraction_or_none(i, 0),
            self.attraction_or_none(i, 1),
            self.attraction_or_none(i, 2),
            self.attraction_or_none(i, 3),
        ]
    }

    /// The reduced attraction of a pair, which is 0 where a component isn't live.
    fn attraction_or_none(&self, i: usize, j: usize) -> Iv
        requires { fault_of self.now.case ≡ None }
        ensures { ends_of result ≡ live_pair self.now.case.n (attraction_entry self.now.case) i j }
    {
        let n = self.case.n as usize;
        if i < n && j < n {
            let (lo, hi) = self.attraction(i, j);
            interval(lo, hi)
        } else {
            none()
        }
    }

    /// The greatest attraction over a reduced co-volume, in 2^-40.
    pub fn greatest_ratio(&self) -> u128
        requires { fault_of self.now.case ≡ None }
        ensures value { pos result ≡ greatest_below self.now.case.n (λ i. greatest_below self.now.case.n (ratio_entry self.now.case i) (pos 0)) (pos 0) }
        ensures high { result ≤ 2 ^ 47 }
    {
        let mut greatest = 0;
        for i in 0..self.case.n as usize {
            greatest = self.greatest_in_row(i).max(greatest);
        }
        greatest
    }

    /// The greatest attraction of a component over its reduced co-volume, in 2^-40.
    fn greatest_in_row(&self, i: usize) -> u128
        requires live { i < self.now.case.n }
        requires accepted { fault_of self.now.case ≡ None }
        ensures value { pos result ≡ greatest_below self.now.case.n (ratio_entry self.now.case i) (pos 0) }
        ensures high { result ≤ 2 ^ 47 }
    {
        let covolume = self.covolume_lo(i);
        let mut greatest = 0;
        for j in 0..self.case.n as usize {
            let (_, attraction) = self.attraction(i, j);
            greatest = ratio_of(attraction, covolume).max(greatest);
        }
        greatest
    }
}
