//! Bounds of the energy of the feed: over cells of packing fractions, and at their middles.

ghost use Rattle.std.specs.Prelude.{◌≡◌, ◌⊎◌, ◌≤◌, ◌<◌, ◌+◌, ◌/◌, ◌^◌, ◌-ℤ◌, ◌≤ℤ◌, ◌<ℤ◌, int_le, unsigned_abs, IfSome, IfNone};
ghost use Rattle.case_types.specs.Arithmetic.Bounds.{box_of};
ghost use Rattle.split_energies.specs.Scanned.{state_at};
ghost use Rattle.fibre_bound.specs.Cells.{IsFeed, IsCell};

use crate::cells::Cell;
use crate::feeds::Feed;
use case_types::PackingLogs;
use energy_surface::Surface;
use split_energies::Scanned;

/// All packing fractions, from 0 to 1.
pub fn whole<S: Surface>(surface: &S, feed: &Feed) -> Cell
    requires feed { IsFeed (S.is_mix_low surface.now) (S.is_mix_up surface.now) feed.now }
    ensures cell { IsCell (S.bounds surface.now) (box_of feed.now.x) (S.are_logs surface.now) result }
    ensures from { result.from.packing ≡ 0 }
    ensures to { result.to.packing ≡ 2 ^ 40 }
{
    cell_between(surface, feed, surface.logs(0), surface.logs(1 << 40))
}

/// The cell between two packing fractions, with its low.
pub fn cell_between<S: Surface>(
    surface: &S,
    feed: &Feed,
    from: PackingLogs,
    to: PackingLogs,
) -> Cell
    requires feed { IsFeed (S.is_mix_low surface.now) (S.is_mix_up surface.now) feed.now }
    requires from { S.are_logs surface.now from.packing from }
    requires to { S.are_logs surface.now to.packing to }
    requires ordered { from.packing < to.packing }
    ensures cell { IsCell (S.bounds surface.now) (box_of feed.now.x) (S.are_logs surface.now) result }
    ensures from { result.from.packing ≡ from.packing }
    ensures to { result.to.packing ≡ to.packing }
{
    Cell {
        from,
        to,
        low: surface.low(&feed.low, &from, &to),
    }
}

/// The logarithms in the middle of a cell.
pub fn middle<S: Surface>(surface: &S, cell: &Cell) -> PackingLogs
    ensures at { result.packing ≡ (cell.now.from.packing + cell.now.to.packing) / 2 }
    ensures logs { S.are_logs surface.now result.packing result }
{
    surface.logs((cell.from.packing + cell.to.packing) / 2)
}

/// Whether no energy in the cell lies below that of the state by more than the slack.
pub fn is_clear(feed: &Feed, best: &Scanned, cell: &Cell) -> bool
    requires { unsigned_abs best.now.up < 2 ^ 49 }
    ensures { result ≡ int_le (best.now.up -ℤ feed.now.slack) cell.now.low }
{
    best.up - feed.slack <= cell.low
}

/// The state at a packing fraction, where there is one and its energy is lower.
pub fn lower_state<S: Surface>(
    surface: &S,
    feed: &Feed,
    logs: &PackingLogs,
    best: &Scanned,
) -> Option<Scanned>
    requires feed { IsFeed (S.is_mix_low surface.now) (S.is_mix_up surface.now) feed.now }
    requires logs { S.are_logs surface.now logs.now.packing logs.now }
    requires inside { logs.now.packing < 2 ^ 40 }
    requires small { unsigned_abs best.now.up < 2 ^ 49 }
    ensures some { IfSome result (λ state. 1 ≤ logs.now.packing) }
    ensures state { IfSome result (λ state. state ≡ state_at (S.bounds surface.now) (box_of feed.now.x) logs.now.packing) }
    ensures lower { IfSome result (λ state. state.up <ℤ best.now.up) }
    ensures small { IfSome result (λ state. unsigned_abs state.up < 2 ^ 49) }
    ensures none { IfNone result ((logs.now.packing ≡ 0) ⊎ (best.now.up ≤ℤ (S.bounds surface.now).up (box_of feed.now.x) logs.now.packing)) }
{
    if logs.packing == 0 {
        return None;
    }
    let state = Scanned {
        packing: logs.packing,
        up: surface.up(&feed.up, logs),
    };
    if state.up < best.up {
        Some(state)
    } else {
        None
    }
}
