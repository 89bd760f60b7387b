//! The slope low of a cell by its parts.

ghost use Rattle.std.specs.Prelude.{◌≡◌, ◌≤◌, ◌^◌, List, ℤ, unsigned_abs, IsFalse, IfSome, IfNone, None};
ghost use Rattle.case_types.specs.Grid.Cells.{Region, region_of, misses, cut, packing_edge};
ghost use Rattle.energy_surface.specs.Surfaces.{slope_low};
ghost use Rattle.box_search.specs.Parts.{meanings, HasParts, AreSlopes, AreLogsAt, IsPackingSlopeOf, IsMixSlopeOf};

use crate::parts::{Half, Shared, Slopes};
use case_types::{MixSlope, PackingLogs, PackingSlope, Plane};
use energy_surface::Surface;

/// The slope low of a cell where there is one, in 2^-40 bit, with its parts.
#[derive(Clone, Copy)]
pub struct Sloped {
    pub low: Option<i128>,
    pub slopes: Slopes,
}

/// The slope low of a cell. The parts that it hasn't are made: first that of the compositions, and that of the packing
/// fractions only where the first is there.
pub fn slope_of<S: Surface>(surface: &S, plane: &Plane, half: &Half) -> Sloped
    requires meets { IsFalse (misses (S.bounds surface.now).count (region_of half.now.cell)) }
    requires parts { HasParts (meanings (S.bounds surface.now).count (S.is_mix_low surface.now) (S.is_mix_up surface.now) (S.are_logs surface.now) (S.is_mix_slope surface.now) (S.is_packing_slope surface.now)) plane.now.lam half.now }
    ensures value { result.low ≡ slope_low (S.bounds surface.now) plane.now.lam (region_of half.now.cell) }
    ensures small { IfSome result.low (λ z. unsigned_abs z ≤ 2 ^ 107) }
    ensures slopes { AreSlopes (meanings (S.bounds surface.now).count (S.is_mix_low surface.now) (S.is_mix_up surface.now) (S.are_logs surface.now) (S.is_mix_slope surface.now) (S.is_packing_slope surface.now)) plane.now.lam (region_of half.now.cell) result.slopes }
{
    let middle = logs_in_middle(surface, half);
    let mix = mix_part(surface, plane, half);
    let packing = match &mix {
        Some(_) => packing_part(surface, half, &middle),
        None => None,
    };
    let low = joined(surface, &packing, &mix);
    let slopes = Slopes {
        middle,
        packing,
        mix,
    };
    Sloped { low, slopes }
}

/// The logarithms at the packing fraction in the middle of a cell.
fn logs_in_middle<S: Surface>(surface: &S, half: &Half) -> PackingLogs
    requires { (lam : List ℤ) × HasParts (meanings (S.bounds surface.now).count (S.is_mix_low surface.now) (S.is_mix_up surface.now) (S.are_logs surface.now) (S.is_mix_slope surface.now) (S.is_packing_slope surface.now)) lam half.now }
    ensures { AreLogsAt (meanings (S.bounds surface.now).count (S.is_mix_low surface.now) (S.is_mix_up surface.now) (S.are_logs surface.now) (S.is_mix_slope surface.now) (S.is_packing_slope surface.now)) (cut (region_of half.now.cell) packing_edge) result }
{
    match half.shared {
        Shared::Packings { middle, slope: _ } => middle,
        _ => surface.logs((half.cell.ylo + half.cell.yhi) / 2),
    }
}

/// What the slope low of a cell has of its packing fractions, where there is such a low.
fn packing_part<S: Surface>(surface: &S, half: &Half, middle: &PackingLogs) -> Option<PackingSlope>
    requires parts { (lam : List ℤ) × HasParts (meanings (S.bounds surface.now).count (S.is_mix_low surface.now) (S.is_mix_up surface.now) (S.are_logs surface.now) (S.is_mix_slope surface.now) (S.is_packing_slope surface.now)) lam half.now }
    requires middle { AreLogsAt (meanings (S.bounds surface.now).count (S.is_mix_low surface.now) (S.is_mix_up surface.now) (S.are_logs surface.now) (S.is_mix_slope surface.now) (S.is_packing_slope surface.now)) (cut (region_of half.now.cell) packing_edge) middle.now }
    ensures some { IfSome result (IsPackingSlopeOf (meanings (S.bounds surface.now).count (S.is_mix_low surface.now) (S.is_mix_up surface.now) (S.are_logs surface.now) (S.is_mix_slope surface.now) (S.is_packing_slope surface.now)) (region_of half.now.cell)) }
    ensures none { IfNone result ((lam : List ℤ) → slope_low (S.bounds surface.now) lam (region_of half.now.cell) ≡ None) }
{
    match half.shared {
        Shared::Packings {
            middle: _,
            slope: Some(slope),
        } => Some(slope),
        _ => surface.packing_slope(&half.from, middle, &half.to),
    }
}

/// What it has of its compositions and of the plane.
fn mix_part<S: Surface>(surface: &S, plane: &Plane, half: &Half) -> Option<MixSlope>
    requires meets { IsFalse (misses (S.bounds surface.now).count (region_of half.now.cell)) }
    requires parts { HasParts (meanings (S.bounds surface.now).count (S.is_mix_low surface.now) (S.is_mix_up surface.now) (S.are_logs surface.now) (S.is_mix_slope surface.now) (S.is_packing_slope surface.now)) plane.now.lam half.now }
    ensures some { IfSome result (IsMixSlopeOf (meanings (S.bounds surface.now).count (S.is_mix_low surface.now) (S.is_mix_up surface.now) (S.are_logs surface.now) (S.is_mix_slope surface.now) (S.is_packing_slope surface.now)) plane.now.lam (region_of half.now.cell)) }
    ensures none { IfNone result (slope_low (S.bounds surface.now) plane.now.lam (region_of half.now.cell) ≡ None) }
{
    match half.shared {
        Shared::Compositions {
            over: _,
            middle: _,
            slope: Some(slope),
        } => Some(slope),
        _ => surface.mix_slope(plane, &half.cell),
    }
}

/// The slope low by its two parts.
fn joined<S: Surface>(
    surface: &S,
    packing: &Option<PackingSlope>,
    mix: &Option<MixSlope>,
) -> Option<i128>
    ensures value { (lam : List ℤ) (r : Region) →
        IfSome packing.now (IsPackingSlopeOf (meanings (S.bounds surface.now).count (S.is_mix_low surface.now) (S.is_mix_up surface.now) (S.are_logs surface.now) (S.is_mix_slope surface.now) (S.is_packing_slope surface.now)) r) → IfNone packing.now (slope_low (S.bounds surface.now) lam r ≡ None) →
        IfSome mix.now (IsMixSlopeOf (meanings (S.bounds surface.now).count (S.is_mix_low surface.now) (S.is_mix_up surface.now) (S.are_logs surface.now) (S.is_mix_slope surface.now) (S.is_packing_slope surface.now)) lam r) → IfNone mix.now (slope_low (S.bounds surface.now) lam r ≡ None) →
        result ≡ slope_low (S.bounds surface.now) lam r }
    ensures small { IfSome result (λ z. unsigned_abs z ≤ 2 ^ 107) }
{
    let packing = packing.as_ref()?;
    let mix = mix.as_ref()?;
    surface.slope(mix, packing)
}
