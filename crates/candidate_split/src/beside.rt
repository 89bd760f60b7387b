//! Compositions beside a phase.

ghost use Rattle.std.specs.Prelude.{◌≤◌, ◌<◌, ◌^◌, ◌*◌, length, slice_index};
ghost use Rattle.std.specs.List.{All};
ghost use Rattle.candidate_split.specs.Points.{IsNear};
ghost use Rattle.candidate_split.specs.TwoPhases.{IsComposition};

use crate::grid::to_grid;
use crate::points::Near;
use arrayvec::ArrayVec;
use case_types::SLOTS;

/// A composition beside a phase in the direction of the component `i`: its fraction is raised by a 64th of itself, and by two units
/// of the grid at least, so that it is another one on the grid too where there is a trace of the component or none.
///
/// The phase is the first of the points, or another that has more than four times as much of the component.
pub fn beside(n: u8, points: &ArrayVec<Near, 7>, i: u8) -> [u32; SLOTS]
    requires one { 1 ≤ n }
    requires four { n ≤ 4 }
    requires inside { i < n }
    requires some { 1 ≤ length points.now.items }
    requires points { All (IsNear n) points.now.items }
    ensures { IsComposition n result }
{
    raised(n, richest(n, points, i), i)
}

/// The composition of the first of the points, or of another that has more than four times as much of the component `i`.
fn richest(n: u8, points: &ArrayVec<Near, 7>, i: u8) -> [u32; SLOTS]
    requires four { n ≤ 4 }
    requires inside { i < n }
    requires some { 1 ≤ length points.now.items }
    requires points { All (IsNear n) points.now.items }
    ensures { IsComposition n result }
{
    let mut comp = points[0].comp;
    for k in 1..points.len() {
        if has_more(&points[k].comp, &comp, i) {
            comp = points[k].comp;
        }
    }
    comp
}

/// Whether a composition has more than four times as much of the component `i` as another.
fn has_more(comp: &[u32; SLOTS], other: &[u32; SLOTS], i: u8) -> bool
    requires { i < 4 }
{
    comp[i as usize] as u64 > 4 * other[i as usize] as u64
}

/// The composition with the fraction of the component `i` raised, on the grid.
fn raised(n: u8, comp: [u32; SLOTS], i: u8) -> [u32; SLOTS]
    requires one { 1 ≤ n }
    requires four { n ≤ 4 }
    requires inside { i < n }
    requires composition { IsComposition n comp }
    ensures { IsComposition n result }
{
    let parts = [
        raised_part(&comp, i, 0),
        raised_part(&comp, i, 1),
        raised_part(&comp, i, 2),
        raised_part(&comp, i, 3),
    ];
    to_grid(n, &parts)
}

/// How much a fraction is raised at least, in 2^-40: two units of the grid, of which the rounding there leaves one.
const LEAST: u64 = 2 << 20;

/// The fraction of the component `k`, in 2^-40, raised where it is the component `i`.
fn raised_part(comp: &[u32; SLOTS], i: u8, k: u8) -> u128
    requires { k < 4 }
    ensures not_less { slice_index comp.now k * 2 ^ 20 ≤ result }
    ensures small { result ≤ 2 ^ 53 }
{
    let part = (comp[k as usize] as u64) << 20;
    if k == i {
        (part + (part >> 6).max(LEAST)) as u128
    } else {
        part as u128
    }
}
