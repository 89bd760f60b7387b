//! The low of a cell by its parts.

ghost use Rattle.std.specs.Prelude.{◌≡◌, ◌≤◌, ◌<◌, ◌^◌, ◌-ℤ◌, unsigned_abs, IsFalse};
ghost use Rattle.case_types.specs.Grid.Cells.{region_of, misses};
ghost use Rattle.energy_surface.specs.Surfaces.{plain_low};
ghost use Rattle.box_search.specs.Parts.{meanings, HasParts, IsOverBox};

use crate::parts::{BoxParts, Half, Shared};
use case_types::{Cell, Plane};
use density_boxes::{cell_box, plane_hi};
use energy_surface::Surface;

/// The plain low of a cell, in 2^-40 bit, with the parts of its compositions.
#[derive(Clone, Copy)]
pub struct Looked {
    pub low: i128,
    pub over: BoxParts,
}

/// The plain low of a cell. The parts of its compositions are made where it hasn't them.
pub fn look<S: Surface>(surface: &S, plane: &Plane, half: &Half) -> Looked
    requires meets { IsFalse (misses (S.bounds surface.now).count (region_of half.now.cell)) }
    requires parts { HasParts (meanings (S.bounds surface.now).count (S.is_mix_low surface.now) (S.is_mix_up surface.now) (S.are_logs surface.now) (S.is_mix_slope surface.now) (S.is_packing_slope surface.now)) plane.now.lam half.now }
    ensures value { result.low ≡ plain_low (S.bounds surface.now) plane.now.lam (region_of half.now.cell) }
    ensures small { unsigned_abs result.low ≤ 2 ^ 107 }
    ensures over { IsOverBox (meanings (S.bounds surface.now).count (S.is_mix_low surface.now) (S.is_mix_up surface.now) (S.are_logs surface.now) (S.is_mix_slope surface.now) (S.is_packing_slope surface.now)) plane.now.lam (region_of half.now.cell) result.over }
{
    let over = match half.shared {
        Shared::Compositions {
            over,
            middle: _,
            slope: _,
        } => over,
        _ => box_parts(surface, plane, &half.cell),
    };
    let energy = surface.low(&over.mix, &half.from, &half.to);
    Looked {
        low: above(energy, over.plane),
        over,
    }
}

/// The parts of lower bounds that belong to the compositions of a cell.
pub fn box_parts<S: Surface>(surface: &S, plane: &Plane, cell: &Cell) -> BoxParts
    requires { IsFalse (misses (S.bounds surface.now).count (region_of cell.now)) }
    ensures { IsOverBox (meanings (S.bounds surface.now).count (S.is_mix_low surface.now) (S.is_mix_up surface.now) (S.are_logs surface.now) (S.is_mix_slope surface.now) (S.is_packing_slope surface.now)) plane.now.lam (region_of cell.now) result }
{
    let n = surface.count();
    let x = cell_box(n, cell);
    BoxParts {
        mix: surface.mix_low(&x),
        plane: plane_hi(n, plane, &x),
    }
}

/// The energy less the plane.
fn above(energy: i128, plane: i128) -> i128
    requires energy { unsigned_abs energy ≤ 2 ^ 106 }
    requires plane { unsigned_abs plane < 2 ^ 80 }
    ensures value { result ≡ energy -ℤ plane }
    ensures small { unsigned_abs result ≤ 2 ^ 107 }
{
    energy - plane
}
