//! The search under one plane.

ghost use Rattle.std.specs.Prelude.{◌≡◌, ◌≤◌, ◌+◌, ◌-◌, ◌*◌, ◌^◌, IfSome, pos, ◌≤ℤ◌, unsigned_abs};
ghost use Rattle.case_types.specs.Arithmetic.Numbers.{numbers_of};
ghost use Rattle.energy_surface.specs.Searches.{low_of};
ghost use Rattle.energy_surface.specs.Surfaces.{under};
ghost use Rattle.box_search.specs.Found.{IsFound, IsRootOpen, units_of};
ghost use Rattle.box_search.specs.Written.{Writes, Searches};
ghost use Rattle.pr_surface.specs.PengRobinson.{surface_of};

use crate::peng_robinson::PengRobinson;
use case_types::{Letters, Plane, Units};
use energy_surface::Found;
use log_enclose::Logarithms;
use pr_params::Params;

/// Searches the whole domain for a grid point below the plane by more than `delta`, in 2^-40 bit, as `box_search::search`
/// does of any surface.
pub fn search(
    params: &Params,
    plane: &Plane,
    delta: i128,
    letters: &mut Letters,
    units: &mut Units,
) -> Found
    requires delta_low { pos 1 ≤ℤ delta }
    requires delta_high { delta ≤ℤ pos (2 ^ 39) }
    requires room { 2 * (units.old.budget - units.old.spent) + 200 ≤ letters.old.spare }
    ensures found { IsFound (under (surface_of (numbers_of params.now.case)) plane.now.lam delta) units.new result }
    ensures small { IfSome (low_of result) (λ low. unsigned_abs low ≤ 2 ^ 107) }
    ensures root { IsRootOpen (under (surface_of (numbers_of params.now.case)) plane.now.lam delta) result }
    ensures letters { Writes letters.old letters.new (units.new.spent - units.old.spent) }
    ensures searched { Searches (under (surface_of (numbers_of params.now.case)) plane.now.lam delta) letters.old.items letters.new.items (units.new.spent - units.old.spent) result }
    ensures budget { units.new.budget ≡ units.old.budget }
    ensures spent { units.old.spent + units_of result ≤ units.new.spent }
{
    let surface = PengRobinson {
        params,
        logs: Logarithms::Anew,
    };
    box_search::search(&surface, plane, delta, letters, units)
}
