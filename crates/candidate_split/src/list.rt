//! The list of candidates.

ghost use Rattle.std.specs.Prelude.{◌≡◌, ◌≤◌, ◌<◌, ◌^◌, ◌↔◌, IsTrue, length, unsigned_abs};
ghost use Rattle.std.specs.List.{All};
ghost use Rattle.case_types.specs.Arithmetic.Bounds.{energy_up as upper_energy};
ghost use Rattle.case_types.specs.Arithmetic.Numbers.{numbers_of};
ghost use Rattle.case_types.specs.Arithmetic.Splits.{phase_up};
ghost use Rattle.case_types.specs.Energy.Divisions.{Divides, division_of};
ghost use Rattle.candidate_split.specs.Candidates.{IsCandidate, IsShallow};
ghost use Rattle.candidate_split.specs.Phases.{IsCounted};
ghost use Rattle.candidate_split.specs.Points.{IsNear};

use crate::beside::beside;
use crate::carried::carried;
use crate::choosing::near_points;
use crate::places::packing_at;
use crate::points::Near;
use crate::settling::settled;
use crate::shares::first_share;
use arrayvec::ArrayVec;
use case_types::{Phase, Split};
use cubic_roots::packings;
use density_boxes::phase_box;
use helmholtz_density::energy_up;
use pr_params::Params;
use split_energies::{feed_as_phase, one_phase};

/// The most candidates.
const MOST: usize = 8;

/// The share of the feed that a phase has which only stands for its columns, 2^-8 in 2^-20.
const LITTLE: u32 = 1 << 12;

/// Splits of the feed that may have nearly the least energy, from a near flash.
///
/// Of a component alone they are the feed at each packing fraction that balances its pressure. Of a mixture the first is made of the
/// phases that the near flash finds; then comes, for each component, a split with a phase beside one of these that has a little
/// more of it; then a split for each phase from the second on. Each is a division of the feed into one or two phases whose upper
/// energies are of size below 2^49 in 2^-40 bit. Nothing is promised of how near they are to the least energy.
pub fn candidates(params: &Params) -> ArrayVec<Split, MOST>
    ensures { All (IsCandidate params.now.case) result.items }
{
    let mut list: ArrayVec<Split, MOST> = ArrayVec::new();
    if params.case.n == 1 {
        put_places(params, &mut list);
    } else {
        let points = near_points(params);
        put_first(params, &points, &mut list);
        put_beside(params, &points, &mut list);
        put_others(params, &points, &mut list);
    }
    list
}

/// Puts the feed in one phase at each packing fraction that balances its pressure.
fn put_places(params: &Params, list: &mut ArrayVec<Split, MOST>)
    requires { All (IsCandidate params.now.case) list.old.items }
    ensures { All (IsCandidate params.now.case) list.new.items }
{
    let places = packings(
        params,
        &phase_box(&params.case, &feed_as_phase(&params.case, 1)),
    );
    for k in 0..places.len() {
        put_feed(params, places[k], list);
    }
}

/// Puts the feed in one phase.
fn put_feed(params: &Params, packing: u64, list: &mut ArrayVec<Split, MOST>)
    requires some { 1 ≤ packing }
    requires inside { packing < 2 ^ 40 }
    requires list { All (IsCandidate params.now.case) list.old.items }
    ensures { All (IsCandidate params.now.case) list.new.items }
{
    put(params, one_phase(&params.case, packing), list);
}

/// Puts the split of the phases that were found: the feed in one phase, or with a second one beside the first.
fn put_first(params: &Params, points: &ArrayVec<Near, 7>, list: &mut ArrayVec<Split, MOST>)
    requires some { 1 ≤ length points.now.items }
    requires points { All (IsNear params.now.case.n) points.now.items }
    requires list { All (IsCandidate params.now.case) list.old.items }
    ensures { All (IsCandidate params.now.case) list.new.items }
{
    if points.len() == 1 {
        let feed = feed_as_phase(&params.case, 1);
        put_feed(params, settled(params, feed.parts).packing, list);
    } else {
        let share = first_share(&params.case, &points[0], &points[1]);
        put_carried(params, share, &points[0], list);
    }
}

/// Puts a split with a phase at the point, which has at most this share of the feed.
fn put_carried(params: &Params, most: u32, point: &Near, list: &mut ArrayVec<Split, MOST>)
    requires some { 1 ≤ most }
    requires most { most ≤ 2 ^ 20 }
    requires point { IsNear params.now.case.n point.now }
    requires list { All (IsCandidate params.now.case) list.old.items }
    ensures { All (IsCandidate params.now.case) list.new.items }
{
    put(
        params,
        carried(params, most, &point.comp, point.packing),
        list,
    );
}

/// Puts, for each component, a split with a phase that has a little more of it than one that was found.
fn put_beside(params: &Params, points: &ArrayVec<Near, 7>, list: &mut ArrayVec<Split, MOST>)
    requires some { 1 ≤ length points.now.items }
    requires points { All (IsNear params.now.case.n) points.now.items }
    requires list { All (IsCandidate params.now.case) list.old.items }
    ensures { All (IsCandidate params.now.case) list.new.items }
{
    for i in 0..params.case.n {
        let comp = beside(params.case.n, points, i);
        let packing = packing_at(params, &comp);
        put(params, carried(params, LITTLE, &comp, packing), list);
    }
}

/// Puts a split for each phase from the second on.
fn put_others(params: &Params, points: &ArrayVec<Near, 7>, list: &mut ArrayVec<Split, MOST>)
    requires points { All (IsNear params.now.case.n) points.now.items }
    requires list { All (IsCandidate params.now.case) list.old.items }
    ensures { All (IsCandidate params.now.case) list.new.items }
{
    for k in 1..points.len() {
        put_carried(params, LITTLE, &points[k], list);
    }
}

/// Puts a split at the end of the list, where there is room and the upper energies of its phases are small enough.
fn put(params: &Params, split: Split, list: &mut ArrayVec<Split, MOST>)
    requires divides { Divides params.now.case (division_of split) }
    requires few { length split.phases.items ≤ 2 }
    requires list { All (IsCandidate params.now.case) list.old.items }
    ensures { All (IsCandidate params.now.case) list.new.items }
{
    if !list.is_full() && is_shallow(params, &split) {
        list.push(split);
    }
}

/// Whether the upper energies of the phases are of size below 2^49.
fn is_shallow(params: &Params, split: &Split) -> bool
    requires { Divides params.now.case (division_of split.now) }
    ensures { IsTrue result ↔ All (IsShallow params.now.case) split.now.phases.items }
{
    for phase in split.phases.iter() {
        if !has_small_energy(params, phase) {
            return false;
        }
    }
    true
}

/// Whether the upper energy of a phase is of size below 2^49.
fn has_small_energy(params: &Params, phase: &Phase) -> bool
    requires { IsCounted params.now.case.n phase.now }
    ensures { IsTrue result ↔ IsShallow params.now.case phase.now }
{
    is_small(phase_energy(params, phase))
}

/// Whether an energy is of size below 2^49.
fn is_small(energy: i128) -> bool
    ensures { IsTrue result ↔ (unsigned_abs energy < 2 ^ 49) }
{
    energy.unsigned_abs() < 1 << 49
}

/// The upper energy of a phase, in 2^-40 bit for a mole of it.
fn phase_energy(params: &Params, phase: &Phase) -> i128
    requires { IsCounted params.now.case.n phase.now }
    ensures value { result ≡ phase_up params.now.case.n (upper_energy (numbers_of params.now.case)) phase.now }
    ensures small { unsigned_abs result ≤ 2 ^ 106 }
{
    energy_up(params, &phase_box(&params.case, phase), phase.packing)
}
