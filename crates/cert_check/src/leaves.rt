//! The leaves of a certificate.

ghost use Rattle.std.specs.Prelude.{◌≡◌, ◌≤◌, ◌^◌, unsigned_abs, IsFalse};
ghost use Rattle.case_types.specs.Grid.Cells.{region_of, misses};
ghost use Rattle.cert_letters.specs.Bounds.{leaf_test, is_low_above};
ghost use Rattle.cert_letters.specs.Steps.{mark_of};
ghost use Rattle.energy_surface.specs.Surfaces.{plain_low, slope_low};
ghost use Rattle.box_search.specs.Parts.{meanings};
ghost use Rattle.cert_check.specs.Kept.{IsKept};

use crate::kept::Kept;
use box_search::{Half, Shared, box_parts, look};
use case_types::{Cell, Plane};
use cert_letters::LeafHow;
use density_boxes::misses;
use energy_surface::Surface;

/// Whether the leaf is as its letter says, and the low by its letter is at least `low`.
///
/// What the letter doesn't want isn't computed, nor what is kept of the leaf before.
#[tactic(auto, unfolding(cert_letters::specs::Bounds::leaf_test))]
pub fn leaf_passes<S: Surface>(
    surface: &S,
    plane: &Plane,
    low: i128,
    kept: &mut Kept,
    cell: &Cell,
    how: LeafHow,
) -> bool
    requires { IsKept (meanings (S.bounds surface.now).count (S.is_mix_low surface.now) (S.is_mix_up surface.now) (S.are_logs surface.now) (S.is_mix_slope surface.now) (S.is_packing_slope surface.now)) plane.now.lam kept.old }
    ensures value { result ≡ leaf_test (S.bounds surface.now) plane.now.lam low (region_of cell.now) (mark_of how) }
    ensures kept { IsKept (meanings (S.bounds surface.now).count (S.is_mix_low surface.now) (S.is_mix_up surface.now) (S.are_logs surface.now) (S.is_mix_slope surface.now) (S.is_packing_slope surface.now)) plane.now.lam kept.new }
{
    let missing = misses(surface.count(), cell);
    match how {
        LeafHow::Misses => missing,
        LeafHow::Plain => !missing && low <= low_plain(surface, plane, kept, cell),
        LeafHow::Sloped => !missing && is_above(low, low_sloped(surface, plane, kept, cell)),
    }
}

/// The plain low of the cell.
fn low_plain<S: Surface>(surface: &S, plane: &Plane, kept: &mut Kept, cell: &Cell) -> i128
    requires meets { IsFalse (misses (S.bounds surface.now).count (region_of cell.now)) }
    requires kept { IsKept (meanings (S.bounds surface.now).count (S.is_mix_low surface.now) (S.is_mix_up surface.now) (S.are_logs surface.now) (S.is_mix_slope surface.now) (S.is_packing_slope surface.now)) plane.now.lam kept.old }
    ensures value { result ≡ plain_low (S.bounds surface.now) plane.now.lam (region_of cell.now) }
    ensures kept { IsKept (meanings (S.bounds surface.now).count (S.is_mix_low surface.now) (S.is_mix_up surface.now) (S.are_logs surface.now) (S.is_mix_slope surface.now) (S.is_packing_slope surface.now)) plane.now.lam kept.new }
{
    kept.turn_to(cell);
    let over = match kept.over {
        Some(over) => over,
        None => box_parts(surface, plane, cell),
    };
    let from = kept.logs_at(surface, cell.ylo);
    let to = kept.logs_at(surface, cell.yhi);
    kept.over = Some(over);
    kept.from = Some(from);
    kept.to = Some(to);
    let shared = Shared::Compositions {
        over,
        middle: None,
        slope: None,
    };
    let half = Half {
        cell: *cell,
        from,
        to,
        shared,
    };
    look(surface, plane, &half).low
}

/// The slope low of the cell, where there is one.
fn low_sloped<S: Surface>(surface: &S, plane: &Plane, kept: &mut Kept, cell: &Cell) -> Option<i128>
    requires meets { IsFalse (misses (S.bounds surface.now).count (region_of cell.now)) }
    requires kept { IsKept (meanings (S.bounds surface.now).count (S.is_mix_low surface.now) (S.is_mix_up surface.now) (S.are_logs surface.now) (S.is_mix_slope surface.now) (S.is_packing_slope surface.now)) plane.now.lam kept.old }
    ensures value { result ≡ slope_low (S.bounds surface.now) plane.now.lam (region_of cell.now) }
    ensures kept { IsKept (meanings (S.bounds surface.now).count (S.is_mix_low surface.now) (S.is_mix_up surface.now) (S.are_logs surface.now) (S.is_mix_slope surface.now) (S.is_packing_slope surface.now)) plane.now.lam kept.new }
{
    kept.turn_to(cell);
    let slope = match kept.slope {
        Some(slope) => slope,
        None => surface.mix_slope(plane, cell)?,
    };
    let from = kept.logs_at(surface, cell.ylo);
    let to = kept.logs_at(surface, cell.yhi);
    kept.slope = Some(slope);
    kept.from = Some(from);
    kept.to = Some(to);
    let middle = surface.logs((cell.ylo + cell.yhi) / 2);
    let packing = surface.packing_slope(&from, &middle, &to)?;
    surface.slope(&slope, &packing)
}

/// The low is there, and is at least this.
fn is_above(low: i128, found: Option<i128>) -> bool
    ensures { result ≡ is_low_above low found }
{
    match found {
        Some(found) => low <= found,
        None => false,
    }
}
