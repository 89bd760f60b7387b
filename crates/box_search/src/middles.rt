//! The middle of a cell, and whether it cuts the plane off.

ghost use Rattle.std.specs.Prelude.{◌≡◌, ◌<◌, ◌≤◌, ◌^◌, List, ℤ, ◌≤ℤ◌, pos, IfSome, IfNone, IsSomeAnd, Some};
ghost use Rattle.case_types.specs.Grid.Cells.{region_of, midpoint as middle_of_region, cut, packing_edge};
ghost use Rattle.case_types.specs.Grid.Columns.{point_of};
ghost use Rattle.energy_surface.specs.Columns.{IsColumn, Refutes};
ghost use Rattle.energy_surface.specs.Surfaces.{under};
ghost use Rattle.box_search.specs.Parts.{meanings, HasParts, AreLogsAt, IsPoint, point_in};

use crate::parts::{Half, PointParts, Shared};
use crate::planes::refutes;
use crate::points::column_of;
use case_types::{Column, PackingLogs, Plane};
use density_boxes::{box_at, midpoint};
use energy_surface::Surface;

/// The grid point in the middle of a cell, with its parts: the logarithms there, and the part that the cell has or a new one.
pub fn middle_of<S: Surface>(surface: &S, half: &Half, logs: &PackingLogs) -> Option<PointParts>
    requires parts { (lam : List ℤ) × HasParts (meanings (S.bounds surface.now).count (S.is_mix_low surface.now) (S.is_mix_up surface.now) (S.are_logs surface.now) (S.is_mix_slope surface.now) (S.is_packing_slope surface.now)) lam half.now }
    requires logs { AreLogsAt (meanings (S.bounds surface.now).count (S.is_mix_low surface.now) (S.is_mix_up surface.now) (S.are_logs surface.now) (S.is_mix_slope surface.now) (S.is_packing_slope surface.now)) (cut (region_of half.now.cell) packing_edge) logs.now }
    ensures at { point_in result ≡ middle_of_region (S.bounds surface.now).count (region_of half.now.cell) }
    ensures parts { IfSome result (IsPoint (meanings (S.bounds surface.now).count (S.is_mix_low surface.now) (S.is_mix_up surface.now) (S.are_logs surface.now) (S.is_mix_slope surface.now) (S.is_packing_slope surface.now))) }
{
    let (comp, _packing) = midpoint(surface.count(), &half.cell)?;
    let mix = match half.shared {
        Shared::Compositions {
            over: _,
            middle: Some(mix),
            slope: _,
        } => mix,
        _ => surface.mix_up(&box_at(comp)),
    };
    Some(PointParts {
        comp,
        mix,
        logs: *logs,
    })
}

/// The column in the middle of a cell, if it lies below the plane by more than `delta`.
pub fn refuting<S: Surface>(
    surface: &S,
    plane: &Plane,
    delta: i128,
    middle: &Option<PointParts>,
) -> Option<Column>
    requires delta_low { pos 1 ≤ℤ delta }
    requires delta_high { delta ≤ℤ pos (2 ^ 39) }
    requires parts { IfSome middle.now (IsPoint (meanings (S.bounds surface.now).count (S.is_mix_low surface.now) (S.is_mix_up surface.now) (S.are_logs surface.now) (S.is_mix_slope surface.now) (S.is_packing_slope surface.now))) }
    ensures column { IfSome result (IsColumn (S.bounds surface.now)) }
    ensures refutes { IfSome result (λ c. Refutes (under (S.bounds surface.now) plane.now.lam delta) (point_of c)) }
    ensures middle { IfSome result (λ c. point_in middle.now ≡ Some (point_of c)) }
    ensures none { IfNone result (IsSomeAnd (point_in middle.now) (Refutes (under (S.bounds surface.now) plane.now.lam delta)) → ⊥) }
{
    let point = middle.as_ref()?;
    let column = column_of(surface, point)?;
    if refutes(surface.count(), plane, delta, &column) {
        Some(column)
    } else {
        None
    }
}
