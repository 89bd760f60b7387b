//! The walk over the packing fractions of the feed in one phase.

ghost use Rattle.std.specs.Prelude.{ℤ, ◌≡◌, ◌≤◌, ◌<◌, ◌-◌, ◌^◌, ◌∷◌, [], All, Some, None, unsigned_abs, IsTrue, IsFalse};
ghost use Rattle.case_types.specs.Arithmetic.Bounds.{box_of};
ghost use Rattle.split_energies.specs.Scanned.{IsInside};
ghost use Rattle.fibre_bound.specs.Cells.{IsFeed};
ghost use Rattle.fibre_bound.specs.Laws.{IsBound};
ghost use Rattle.fibre_bound.specs.Walks.{IsFibre, question_of, question_over};

use crate::bounds::{cell_between, is_clear, lower_state, middle, whole};
use crate::cells::Cell;
use crate::feeds::{Feed, feed_box};
use crate::fibres::{Fibre, FibreEnd};
use crate::lows::{least_low, lesser};
use crate::stack::Stack;
use arrayvec::ArrayVec;
use case_types::{Case, Units};
use energy_surface::Surface;
use split_energies::{PACKINGS, Scanned, half, lowest};

/// Bounds the energy of the feed in one phase, over all packing fractions.
///
/// The walk begins at the state of least upper energy among some packing fractions, in 2^-40, and half the densest packing. It ends
/// clear exactly where the two bounds differ by at most `tol * 2^14`, `tol` being the tolerance in 2^-20 bit. A halving costs a
/// unit, and so does a lower state.
pub fn one_phase<S: Surface>(
    surface: &S,
    case: &Case,
    packings: &ArrayVec<u64, PACKINGS>,
    tol: u32,
    units: &mut Units,
) -> Fibre
    requires components { (S.bounds surface.now).count ≡ case.now.n }
    requires inside { All IsInside packings.now.items }
    requires tol { tol ≤ 1048576 }
    ensures fibre { IsFibre (question_of (S.bounds surface.now) case.now packings.now.items tol) (units.old.budget - units.old.spent) (units.new.spent - units.old.spent) result }
    ensures bound { IsBound (S.bounds surface.now) case.now tol result }
    ensures up_small { unsigned_abs result.up < 2 ^ 49 }
    ensures low_small { unsigned_abs result.low ≤ 2 ^ 106 }
    ensures budget { units.new.budget ≡ units.old.budget }
    ensures spent { units.old.spent ≤ units.new.spent }
{
    let x = feed_box(case);
    let feed = Feed {
        x,
        low: surface.mix_low(&x),
        up: surface.mix_up(&x),
        slack: i128::from(tol) * (1 << 14),
    };
    let first = lowest(surface, &feed.up, packings, half(surface, &feed.up));
    walk(surface, &feed, first, units)
}

/// Walks over all packing fractions, from a first state.
fn walk<S: Surface>(surface: &S, feed: &Feed, first: Scanned, units: &mut Units) -> Fibre
    requires feed { IsFeed (S.is_mix_low surface.now) (S.is_mix_up surface.now) feed.now }
    requires small { unsigned_abs first.up < 2 ^ 49 }
    ensures fibre { IsFibre (question_over (S.bounds surface.now) (box_of feed.now.x) feed.now.slack first) (units.old.budget - units.old.spent) (units.new.spent - units.old.spent) result }
    ensures up_small { unsigned_abs result.up < 2 ^ 49 }
    ensures low_small { unsigned_abs result.low ≤ 2 ^ 106 }
    ensures budget { units.new.budget ≡ units.old.budget }
    ensures spent { units.old.spent ≤ units.new.spent }
{
    let mut best = first;
    let mut least = None;
    let mut stack = Stack::new(whole(surface, feed));
    while let Some(hand) = stack.pop() {
        if is_clear(feed, &best, &hand) {
            least = lesser(least, &hand.low);
            continue;
        }
        let logs = middle(surface, &hand);
        let lower = lower_state(surface, feed, &logs, &best);
        if is_stuck(&lower, &hand) {
            let end = FibreEnd::Grain(hand.from.packing);
            return ended(best, least_low(least, &hand, stack), end);
        }
        if units.is_spent() {
            return ended(best, least_low(least, &hand, stack), FibreEnd::Spent);
        }
        units.spend();
        if let Some(state) = lower {
            best = state;
            stack.push(hand);
            continue;
        }
        stack.push(cell_between(surface, feed, logs, hand.to));
        stack.push(cell_between(surface, feed, hand.from, logs));
    }
    ended(best, lesser(least, &best.up), FibreEnd::Clear)
}

/// Whether a cell that isn't cleared can neither give a lower state nor be halved.
fn is_stuck(lower: &Option<Scanned>, cell: &Cell) -> bool
    requires { cell.now.from.packing < cell.now.to.packing }
    ensures none { IsTrue result → lower.now ≡ None }
    ensures unit { IsTrue result → cell.now.to.packing - cell.now.from.packing ≡ 1 }
    ensures free { IsFalse result → lower.now ≡ None → 2 ≤ cell.now.to.packing - cell.now.from.packing }
{
    match lower {
        Some(_) => false,
        None => cell.to.packing - cell.from.packing == 1,
    }
}

/// The bounds that a walk ends with, where there is a least low.
fn ended(best: Scanned, least: Option<i128>, end: FibreEnd) -> Fibre
    ensures packing { result.packing ≡ best.packing }
    ensures up { result.up ≡ best.up }
    ensures low { (z : ℤ) → least ≡ Some z → result.low ≡ z }
    ensures end { result.end ≡ end }
{
    Fibre {
        packing: best.packing,
        up: best.up,
        low: least.unwrap_or(best.up),
        end,
    }
}
