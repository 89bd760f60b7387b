//! The energy at one packing, at most.

ghost use Rattle.std.specs.Prelude.{◌≡◌, ◌≤◌, ◌<◌, ◌^◌, unsigned_abs};
ghost use Rattle.log_laws.specs.Fraction.{IsSame};
ghost use Rattle.log_laws.specs.LogSum.{AtMost, ratio};
ghost use Rattle.case_types.specs.Arithmetic.Numbers.{numbers_of, enclosures_of};
ghost use Rattle.case_types.specs.Arithmetic.Bounds.{energy_up as upper_energy};
ghost use Rattle.case_types.specs.Energy.Divisions.{State, IsState, bits, energy_of};
ghost use Rattle.case_types.specs.Arithmetic.Holding.{IsInBox};
ghost use Rattle.case_types.specs.Energy.Instances.{Instance, IsInstance};
ghost use Rattle.case_types.specs.Arithmetic.Bounds.{box_of};

use crate::from_parts::{mix_up, up_of_parts};
use case_types::BoxX;
use log_enclose::Logarithms;
use pr_params::{Params, packing_logs};

/// The energy at every composition of the box and at the packing fraction `y` is at most this, in 2^-40 bit.
pub fn energy_up(params: &Params, x: &BoxX, y: u64) -> i128
    requires some { 1 ≤ y }
    requires inside { y < 2 ^ 40 }
    ensures value { result ≡ upper_energy (numbers_of params.now.case) (box_of x.now) y }
    ensures at_most { (roots : Instance) (f : State) →
        IsInstance params.now.case (enclosures_of params.now.case) roots →
        IsInBox params.now.case.n (box_of x.now) f →
        IsState params.now.case.n f →
        IsSame f.packing (ratio y (2 ^ 40)) →
        AtMost (energy_of params.now.case roots f) (bits result) }
    ensures small { unsigned_abs result ≤ 2 ^ 106 }
    ensures at_half { y ≡ 2 ^ 39 → unsigned_abs result < 2 ^ 49 }
{
    let logs = Logarithms::Anew;
    up_of_parts(params, &mix_up(params, logs, x), &packing_logs(logs, y))
}
