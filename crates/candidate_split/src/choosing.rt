//! Which phases of a near flash count.

ghost use Rattle.std.specs.Prelude.{ℕ, ◌≡◌, ◌≤◌, ◌<◌, ◌+◌, ◌-◌, ◌^◌, [], length, slice_index, IsTrue, IsSome, IfSome, None};
ghost use Rattle.std.specs.List.{All, Contains};
ghost use Rattle.candidate_split.specs.Points.{IsNear};

use crate::grid::to_grid;
use crate::near_flash::near_flash;
use crate::points::Near;
use crate::trials::{TRIALS, Trial};
use arrayvec::ArrayVec;
use pr_params::Params;

#[cfg(test)]
mod tests;

/// The least amount of a phase that counts, 2^-16 in 2^-30.
const PRESENT: u64 = 1 << 14;

/// How far points lie apart at least, in 2^-20: 2^-5.
const APART: u64 = 1 << 15;

/// Points near the phases that a near flash of the feed finds, the greatest amounts first: at least one.
///
/// They are guesses: nothing is promised of how near they are, nor that they are all.
pub fn near_points(params: &Params) -> ArrayVec<Near, TRIALS>
    ensures some { 1 ≤ length result.items }
    ensures points { All (IsNear params.now.case.n) result.items }
{
    let trials = near_flash(params);
    let points = points_of(params.case.n, &trials);
    chosen(&points)
}

/// The points of the phases.
fn points_of(n: u8, trials: &ArrayVec<Trial, TRIALS>) -> ArrayVec<Near, TRIALS>
    requires one { 1 ≤ n }
    requires four { n ≤ 4 }
    ensures all { length result.items ≡ length trials.now.items }
    ensures points { All (IsNear n) result.items }
{
    let mut points: ArrayVec<Near, TRIALS> = ArrayVec::new();
    for trial in trials.iter() {
        points.push(point_of(n, trial));
    }
    points
}

/// The point of a phase.
fn point_of(n: u8, trial: &Trial) -> Near
    requires one { 1 ≤ n }
    requires four { n ≤ 4 }
    ensures { IsNear n result }
{
    Near {
        comp: to_grid(n, &trial.phase.parts),
        packing: trial.phase.packing,
        amount: trial.amount,
    }
}

/// Those of the points that count and lie apart from those before them, the greatest amounts first.
fn chosen(points: &ArrayVec<Near, TRIALS>) -> ArrayVec<Near, TRIALS>
    ensures some { 1 ≤ length points.now.items → 1 ≤ length result.items }
    ensures theirs { All (Contains points.now.items) result.items }
{
    let mut chosen: ArrayVec<Near, TRIALS> = ArrayVec::new();
    for _round in 0..TRIALS {
        if let Some(near) = next(points, &chosen) {
            chosen.push(near);
        }
    }
    chosen
}

/// The first of the points of greatest amount among those that count beside the chosen ones.
fn next(points: &ArrayVec<Near, TRIALS>, chosen: &ArrayVec<Near, TRIALS>) -> Option<Near>
    ensures first { length chosen.now.items ≡ 0 → 1 ≤ length points.now.items → IsSome result }
    ensures theirs { IfSome result (Contains points.now.items) }
{
    let mut best: Option<Near> = None;
    for near in points.iter() {
        if is_more(near, &best) && counts(near, chosen) {
            best = Some(*near);
        }
    }
    best
}

/// Whether the point has a greater amount than the best so far.
fn is_more(near: &Near, best: &Option<Near>) -> bool
    ensures { best.now ≡ None → IsTrue result }
{
    match best {
        Some(best) => near.amount > best.amount,
        None => true,
    }
}

/// Whether the point is enough of a phase and lies apart from the chosen ones. The first is chosen in any case.
fn counts(near: &Near, chosen: &ArrayVec<Near, TRIALS>) -> bool
    ensures { length chosen.now.items ≡ 0 → IsTrue result }
{
    if chosen.is_empty() {
        return true;
    }
    near.amount >= PRESENT && chosen.iter().all(|other| lies_apart(near, other))
}

/// Whether two points lie apart: the differences of their fractions and of their packing fractions add up to more than 2^-5.
fn lies_apart(a: &Near, b: &Near) -> bool {
    let comp = a.comp[0].abs_diff(b.comp[0]) as u64
        + a.comp[1].abs_diff(b.comp[1]) as u64
        + a.comp[2].abs_diff(b.comp[2]) as u64
        + a.comp[3].abs_diff(b.comp[3]) as u64;
    comp + (a.packing.abs_diff(b.packing) >> 20) > APART
}
