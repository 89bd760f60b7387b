//! A case with its lift and the roots of its critical pressures.

ghost use Rattle.std.specs.Prelude.{◌≡◌, ◌≤◌, ◌<◌, IsTrue};
ghost use Rattle.case_types.specs.Arithmetic.Faults.{covolumes_in_range};
ghost use Rattle.case_types.specs.Energy.Instances.{pair_place};
ghost use Rattle.case_types.specs.Arithmetic.Numbers.{enclosures_of, lift_of, pressure_root_ends};
ghost use Rattle.log_laws.specs.Interval.{ends_of};
ghost use Rattle.pr_params.specs.Entries.{pressure_entry, ends_of_all};

use crate::lifting::{common_lift, row_at};
use crate::naturals::{interval, none};
use case_types::{Case, PAIRS};
use log_laws::Iv;
use root_enclose::root_iv;

/// A case whose largest reduced co-volume is in its range, with what the numbers of single pairs are made of.
#[derive(Clone, Copy)]
pub struct Lifted {
    pub case: Case,
    /// How many bits the reduced co-volumes are raised by.
    pub lift: u32,
    /// The roots of the products of two critical pressures, in 2^-32, in the order 12, 13, 14, 23, 24, 34.
    pub q: [Iv; PAIRS],
    pub ghost range: { IsTrue (covolumes_in_range case) },
    pub ghost lifted: { lift ≡ lift_of case },
    pub ghost few: { lift ≤ 29 },
    pub ghost printed: { ends_of_all q ≡ (enclosures_of case).pressure_roots },
}

/// A case with its lift and the roots of its critical pressures.
pub fn lift_case(case: &Case) -> Lifted
    requires { IsTrue (covolumes_in_range case.now) }
    ensures { result.case ≡ case.now }
{
    Lifted {
        case: *case,
        lift: common_lift(case),
        q: pressure_roots(case),
    }
}

/// The roots of the products of two critical pressures, in 2^-32, in the order 12, 13, 14, 23, 24, 34.
fn pressure_roots(case: &Case) -> [Iv; PAIRS]
    ensures { ends_of_all result ≡ (enclosures_of case.now).pressure_roots }
{
    [
        pressure_root(case, 0, 1),
        pressure_root(case, 0, 2),
        pressure_root(case, 0, 3),
        pressure_root(case, 1, 2),
        pressure_root(case, 1, 3),
        pressure_root(case, 2, 3),
    ]
}

/// The root of the product of two critical pressures, in 2^-32, which is 0 where a component isn't live.
fn pressure_root(case: &Case, i: usize, j: usize) -> Iv
    requires { i < j }
    ensures { ends_of result ≡ pressure_root_ends case.now i j }
{
    if j < case.n as usize {
        let own = row_at(case, i).pc;
        let other = row_at(case, j).pc;
        root_iv(own as u128 * other as u128, 1, 32)
    } else {
        none()
    }
}

/// The place of a pair among the roots of critical pressures.
fn place_of(i: usize, j: usize) -> usize
    requires ordered { i < j }
    requires few { j < 4 }
    ensures value { result ≡ pair_place i j }
    ensures inside { result < 6 }
{
    i * (5 - i) / 2 + j - 1
}

impl Lifted {
    /// The root of the product of two critical pressures, in 2^-32, which is exact for one component.
    pub fn pressure_root_of(&self, i: usize, j: usize) -> Iv
        requires live { i < self.now.case.n }
        requires other_live { j < self.now.case.n }
        ensures { ends_of result ≡ pressure_entry self.now.case i j }
    {
        if i < j {
            self.q[place_of(i, j)]
        } else if j < i {
            self.q[place_of(j, i)]
        } else {
            let own = row_at(&self.case, i).pc as u128 * (1 << 32);
            interval(own, own)
        }
    }
}
