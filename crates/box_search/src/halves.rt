//! The halves of a cell, each with the parts that it shares with the cell.

ghost use Rattle.std.specs.Prelude.{List, ℤ, ◌+◌, ◌-◌, ◌*◌, ◌≡◌, ◌≤◌, ◌<◌};
ghost use Rattle.std.specs.Option.{option_map};
ghost use Rattle.case_types.specs.Grid.Cells.{region_of, lower_half, upper_half, edge_length, root_region};
ghost use Rattle.density_boxes.specs.Halvings.{halvings_left};
ghost use Rattle.box_search.specs.declared.parts.PointParts.{PointParts};
ghost use Rattle.box_search.specs.Parts.{meanings, HasParts, shared_along, logs_along};

use crate::parts::{Half, Made, PointParts, Shared};
use case_types::{MixUp, PackingLogs};
use density_boxes::{PACKING, halve, root};
use energy_surface::Surface;

/// The whole domain.
pub fn whole<S: Surface>(surface: &S) -> Half
    ensures whole { region_of result.cell ≡ root_region (S.bounds surface.now).count }
    ensures halvings { halvings_left (region_of result.cell) ≡ 20 * ((S.bounds surface.now).count - 1) + 40 }
    ensures parts { (lam : List ℤ) → HasParts (meanings (S.bounds surface.now).count (S.is_mix_low surface.now) (S.is_mix_up surface.now) (S.are_logs surface.now) (S.is_mix_slope surface.now) (S.is_packing_slope surface.now)) lam result }
{
    let cell = root(surface.count());
    Half {
        cell,
        from: surface.logs(cell.ylo),
        to: surface.logs(cell.yhi),
        shared: Shared::Nothing,
    }
}

/// The lower and the upper half of a cell along an edge, with what they have from it.
pub fn halves(half: &Half, edge: u8, made: &Made, middle: &Option<PointParts>) -> (Half, Half)
    requires edge { edge ≤ 3 }
    requires wide { 2 ≤ edge_length (region_of half.now.cell) edge }
    ensures lower { region_of result.0.cell ≡ lower_half edge (region_of half.now.cell) }
    ensures upper { region_of result.1.cell ≡ upper_half edge (region_of half.now.cell) }
    ensures lower_left { halvings_left (region_of result.0.cell) < halvings_left (region_of half.now.cell) }
    ensures upper_left { halvings_left (region_of result.1.cell) < halvings_left (region_of half.now.cell) }
    ensures lower_from { result.0.from ≡ half.now.from }
    ensures lower_to { result.0.to ≡ logs_along edge made.now half.now.to }
    ensures upper_from { result.1.from ≡ logs_along edge made.now half.now.from }
    ensures upper_to { result.1.to ≡ half.now.to }
    ensures lower_shared { result.0.shared ≡ shared_along edge made.now middle.now }
    ensures upper_shared { result.1.shared ≡ shared_along edge made.now middle.now }
{
    let (lower, upper) = halve(&half.cell, edge);
    let shared = shared_by(edge, made, middle);
    let lower = Half {
        cell: lower,
        from: half.from,
        to: logs_by(edge, made, &half.to),
        shared,
    };
    let upper = Half {
        cell: upper,
        from: logs_by(edge, made, &half.from),
        to: half.to,
        shared,
    };
    (lower, upper)
}

/// What both halves share: what was made of the compositions, or of the packing fractions.
fn shared_by(edge: u8, made: &Made, middle: &Option<PointParts>) -> Shared
    ensures { result ≡ shared_along edge made.now middle.now }
{
    if edge == PACKING {
        Shared::Compositions {
            over: made.over,
            middle: mix_at(middle),
            slope: made.slopes.mix,
        }
    } else {
        Shared::Packings {
            middle: made.slopes.middle,
            slope: made.slopes.packing,
        }
    }
}

/// The logarithms at an end of a half: where both halves meet along the packing, else where the cell has its own end.
fn logs_by(edge: u8, made: &Made, own: &PackingLogs) -> PackingLogs
    ensures { result ≡ logs_along edge made.now own.now }
{
    if edge == PACKING {
        made.slopes.middle
    } else {
        *own
    }
}

/// The part of a point's composition, if there is a point.
fn mix_at(point: &Option<PointParts>) -> Option<MixUp>
    ensures { result ≡ option_map (λ (p : PointParts). p.mix) point.now }
{
    match point {
        Some(point) => Some(point.mix),
        None => None,
    }
}
