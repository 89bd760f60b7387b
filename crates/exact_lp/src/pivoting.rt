//! The pivot: which column leaves the basis, by the ratio test.

ghost use Rattle.std.specs.Prelude.{◌≡◌, ◌≤◌, ◌<◌, ◌+◌, ◌^◌, ◌<ℤ◌, pos, length, unsigned_abs, slice_index, slice_set, IsTrue, MatchBool};
ghost use Rattle.case_types.specs.Ranges.{is_each_below};
ghost use Rattle.energy_surface.specs.Program.Bases.{AreColumns, IsBasis};
ghost use Rattle.energy_surface.specs.Program.Pivots.{IsLeaving};
ghost use Rattle.exact_lp.specs.Frames.{along_all, entry, row_of, IsNoLater, IsBestSoFar};

use crate::frames::Frame;
use crate::normals::{Point, along};
use crate::points::{Basis, basis_frame, live_point};
use case_types::{Case, Columns, SLOTS};
use log_laws::{Frac, frac_cmp};
use std::cmp::Ordering;

/// The amounts of the four places for a point, over the size of the frame.
#[derive(Clone, Copy)]
pub struct Amounts {
    pub u: [i128; SLOTS],
    pub ghost small: { IsTrue (is_each_below 4 u (2 ^ 80 + 1)) },
}

/// The amounts for a point.
pub fn amounts_for(frame: &Frame, point: &Point) -> Amounts
    ensures { result.u ≡ along_all frame.now.first.a frame.now.second.a frame.now.third.a frame.now.fourth.a (row_of point.now.x) }
{
    Amounts {
        u: [
            along(&frame.first, point),
            along(&frame.second, point),
            along(&frame.third, point),
            along(&frame.fourth, point),
        ],
    }
}

/// Puts a column into the basis and answers the place that it takes, from 0: of the columns that take part in the entering one,
/// that of least ratio of its amount for the feed to that for the entering column. Of equal ratios the least column leaves.
///
/// Any column may enter; [`price`](crate::price) names the one that the simplex method takes.
pub fn pivot(case: &Case, columns: &Columns, basis: &mut Basis, enter: u32) -> u8
    requires columns { AreColumns case.now.n columns.now.items }
    requires basis { IsBasis case.now columns.now.items basis.old.at }
    requires inside { enter < length columns.now.items }
    ensures leaves { IsLeaving case.now columns.now.items basis.old.at enter result }
    ensures entered { basis.new.at ≡ slice_set basis.old.at result enter }
    ensures kept { IsBasis case.now columns.now.items basis.new.at }
{
    let leave = leaving(case, columns, basis, enter);
    basis.at[leave as usize] = enter;
    leave
}

/// The place that leaves.
fn leaving(case: &Case, columns: &Columns, basis: &Basis, enter: u32) -> u8
    requires columns { AreColumns case.now.n columns.now.items }
    requires basis { IsBasis case.now columns.now.items basis.now.at }
    requires inside { enter < length columns.now.items }
    ensures { IsLeaving case.now columns.now.items basis.now.at enter result }
{
    let frame = basis_frame(case.n, columns, basis);
    let for_feed = amounts_for(&frame, &live_point(case.n, &case.z));
    let for_column = amounts_for(
        &frame,
        &live_point(case.n, &columns.get(enter as usize).comp),
    );
    best(case.n, &for_feed, &for_column, &basis.at)
}

/// The first place by the rule, or n if no place takes part.
fn best(n: u8, z: &Amounts, x: &Amounts, at: &[u32; SLOTS]) -> u8
    requires few { n ≤ 4 }
    ensures { IsBestSoFar (entry z.now.u) (entry x.now.u) (slice_index at.now) n n result }
{
    let mut best = n;
    for k in 0..n {
        best = better(n, z, x, at, k, best);
    }
    best
}

/// The best of the places up to k, from that of the places before it.
fn better(n: u8, z: &Amounts, x: &Amounts, at: &[u32; SLOTS], k: u8, best: u8) -> u8
    requires few { n ≤ 4 }
    requires place { k < n }
    requires so_far { IsBestSoFar (entry z.now.u) (entry x.now.u) (slice_index at.now) n k best }
    ensures { IsBestSoFar (entry z.now.u) (entry x.now.u) (slice_index at.now) n (k + 1) result }
{
    if x.u[k as usize] <= 0 {
        return best;
    }
    if best == n {
        return k;
    }
    if is_earlier(z, x, at, k, best) {
        k
    } else {
        best
    }
}

/// Whether place k has a lesser ratio than place b, or the same and an earlier column.
fn is_earlier(z: &Amounts, x: &Amounts, at: &[u32; SLOTS], k: u8, b: u8) -> bool
    requires k { k < 4 }
    requires b { b < 4 }
    requires k_takes { pos 0 <ℤ entry x.now.u k }
    requires b_takes { pos 0 <ℤ entry x.now.u b }
    ensures { MatchBool result (IsNoLater (entry z.now.u) (entry x.now.u) (slice_index at.now) k b) (IsNoLater (entry z.now.u) (entry x.now.u) (slice_index at.now) b k) }
{
    match frac_cmp(ratio(z, x, k), ratio(z, x, b)) {
        Ordering::Less => true,
        Ordering::Equal => at[k as usize] <= at[b as usize],
        Ordering::Greater => false,
    }
}

/// The ratio of a place.
fn ratio(z: &Amounts, x: &Amounts, k: u8) -> Frac
    requires place { k < 4 }
    requires takes { pos 0 <ℤ entry x.now.u k }
    ensures num { result.num ≡ entry z.now.u k }
    ensures den { pos result.den ≡ entry x.now.u k }
    ensures num_small { unsigned_abs result.num ≤ 2 ^ 80 }
    ensures den_small { result.den ≤ 2 ^ 80 }
{
    Frac {
        num: z.u[k as usize],
        den: x.u[k as usize].unsigned_abs(),
    }
}
