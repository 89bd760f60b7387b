//! The low of the whole domain as one cell.

ghost use Rattle.std.specs.Prelude.{◌≡◌, ◌≤◌, ◌^◌, unsigned_abs};
ghost use Rattle.case_types.specs.Grid.Cells.{root_region};
ghost use Rattle.energy_surface.specs.Surfaces.{plain_low};

use crate::halves::whole;
use crate::looks::look;
use case_types::Plane;
use energy_surface::Surface;

/// Over the whole domain the energy lies above the plane by at least this, in 2^-40 bit.
pub fn whole_low<S: Surface>(surface: &S, plane: &Plane) -> i128
    ensures value { result ≡ plain_low (S.bounds surface.now) plane.now.lam (root_region (S.bounds surface.now).count) }
    ensures small { unsigned_abs result ≤ 2 ^ 107 }
{
    look(surface, plane, &whole(surface)).low
}
