//! The energy over a box and a range of packings, at least.

ghost use Rattle.std.specs.Prelude.{◌≡◌, ◌≤◌, ◌<◌, ◌^◌, ◌*◌, pos, ◌*ℤ◌, ◌≤ℤ◌, unsigned_abs};
ghost use Rattle.log_laws.specs.LogSum.{AtLeast};
ghost use Rattle.case_types.specs.Arithmetic.Numbers.{numbers_of, enclosures_of};
ghost use Rattle.case_types.specs.Arithmetic.Bounds.{energy_low};
ghost use Rattle.case_types.specs.Energy.Divisions.{State, IsState, bits, energy_of};
ghost use Rattle.case_types.specs.Arithmetic.Holding.{IsInBox};
ghost use Rattle.case_types.specs.Energy.Instances.{Instance, IsInstance};
ghost use Rattle.case_types.specs.Arithmetic.Bounds.{box_of};

use crate::from_parts::{low_of_parts, mix_low};
use case_types::BoxX;
use log_enclose::Logarithms;
use pr_params::{Params, packing_logs};

/// The energy at every composition of the box and every packing from `ylo` to `yhi` is at least this, in 2^-40 bit. The
/// ends may be the same.
pub fn low_energy(params: &Params, x: &BoxX, ylo: u64, yhi: u64) -> i128
    requires ordered { ylo ≤ yhi }
    requires inside { yhi ≤ 2 ^ 40 }
    requires room { ylo < 2 ^ 40 }
    requires some { 1 ≤ yhi }
    ensures value { result ≡ energy_low (numbers_of params.now.case) (box_of x.now) ylo yhi }
    ensures at_least { (roots : Instance) (f : State) →
        IsInstance params.now.case (enclosures_of params.now.case) roots →
        IsInBox params.now.case.n (box_of x.now) f →
        IsState params.now.case.n f →
        pos (ylo * f.packing.den) ≤ℤ (f.packing.num *ℤ pos (2 ^ 40)) →
        (f.packing.num *ℤ pos (2 ^ 40)) ≤ℤ pos (yhi * f.packing.den) →
        AtLeast (energy_of params.now.case roots f) (bits result) }
    ensures small { unsigned_abs result ≤ 2 ^ 106 }
{
    let logs = Logarithms::Anew;
    low_of_parts(
        params,
        &mix_low(params, logs, x),
        &packing_logs(logs, ylo),
        &packing_logs(logs, yhi),
    )
}
