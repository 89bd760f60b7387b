//! Columns at grid points.

ghost use Rattle.std.specs.Prelude.{◌≡◌, ◌≤◌, ◌<◌, ◌^◌, IsSome, IfSome, IfNone, unsigned_abs};
ghost use Rattle.log_laws.specs.Whole.{ceil_over};
ghost use Rattle.case_types.specs.Grid.Columns.{IsGridPoint, point_of};
ghost use Rattle.energy_surface.specs.Columns.{IsColumn, point_up};
ghost use Rattle.box_search.specs.Parts.{meanings, IsPoint, grid_point};

use crate::parts::PointParts;
use case_types::{Column, SLOTS};
use density_boxes::box_at;
use energy_surface::Surface;

/// The column at a composition, in 2^-20, and a packing fraction, in 2^-40, if its upper energy is of size below 2^49, as it
/// is at half the densest packing.
pub fn column_at<S: Surface>(surface: &S, comp: [u32; SLOTS], packing: u64) -> Option<Column>
    requires { IsGridPoint (S.bounds surface.now).count (record { composition = comp; packing = packing }) }
    ensures column { IfSome result (IsColumn (S.bounds surface.now)) }
    ensures comp { IfSome result (λ c. c.comp ≡ comp) }
    ensures packing { IfSome result (λ c. c.packing ≡ packing) }
    ensures at_half { packing ≡ 2 ^ 39 → IsSome result }
    ensures none { IfNone result (2 ^ 49 ≤ unsigned_abs (point_up (S.bounds surface.now) (record { composition = comp; packing = packing }))) }
{
    let n = surface.count();
    prove!(n <= SLOTS as u8);
    let mix = surface.mix_up(&box_at(comp));
    let logs = surface.logs(packing);
    column_of(surface, &PointParts { comp, mix, logs })
}

/// The column at a grid point with its parts, if its upper energy is of size below 2^49.
pub fn column_of<S: Surface>(surface: &S, point: &PointParts) -> Option<Column>
    requires { IsPoint (meanings (S.bounds surface.now).count (S.is_mix_low surface.now) (S.is_mix_up surface.now) (S.are_logs surface.now) (S.is_mix_slope surface.now) (S.is_packing_slope surface.now)) point.now }
    ensures column { IfSome result (IsColumn (S.bounds surface.now)) }
    ensures at { IfSome result (λ c. point_of c ≡ grid_point point.now) }
    ensures at_half { point.now.logs.packing ≡ 2 ^ 39 → IsSome result }
    ensures none { IfNone result (2 ^ 49 ≤ unsigned_abs (point_up (S.bounds surface.now) (grid_point point.now))) }
{
    let up = surface.up(&point.mix, &point.logs);
    if up.unsigned_abs() >= 1 << 49 {
        return None;
    }
    Some(Column {
        comp: point.comp,
        packing: point.logs.packing,
        up: up as i64,
        cost: cost_of(up) as i64,
    })
}

/// An energy in 2^-40 bit as one in 2^-30 bit, rounded up.
fn cost_of(up: i128) -> i128
    requires { unsigned_abs up < 2 ^ 49 }
    ensures value { result ≡ ceil_over up (2 ^ 10) }
    ensures small { unsigned_abs result ≤ 2 ^ 49 }
{
    -(-up >> 10)
}
