//! The energy of a split, at most.

ghost use Rattle.std.specs.Prelude.{◌≡◌, ◌≤◌, ◌^◌, unsigned_abs};
ghost use Rattle.log_laws.specs.LogSum.{AtMost};
ghost use Rattle.case_types.specs.Arithmetic.Bounds.{energy_up};
ghost use Rattle.case_types.specs.Arithmetic.Numbers.{numbers_of, enclosures_of};
ghost use Rattle.case_types.specs.Arithmetic.Splits.{split_up};
ghost use Rattle.case_types.specs.Energy.Divisions.{Divides, division_of, energy_of_division, bits};
ghost use Rattle.case_types.specs.Energy.Instances.{Instance, IsInstance};

use crate::peng_robinson::PengRobinson;
use case_types::Split;
use log_enclose::Logarithms;
use pr_params::Params;

/// The energy of the split is at most this, in 2^-40 bit for a mole of feed, for every choice of the roots and of the logarithm
/// of e between their printed ends.
pub fn split_energy(params: &Params, split: &Split) -> i128
    requires divides { Divides params.now.case (division_of split.now) }
    ensures value { result ≡ split_up params.now.case.n (energy_up (numbers_of params.now.case)) split.now }
    ensures at_most { (roots : Instance) →
        IsInstance params.now.case (enclosures_of params.now.case) roots →
        AtMost (energy_of_division params.now.case roots (division_of split.now)) (bits result) }
    ensures small { unsigned_abs result ≤ 2 ^ 109 }
{
    let surface = PengRobinson {
        params,
        logs: Logarithms::Anew,
    };
    split_energies::split_energy(&surface, &params.case, split)
}
