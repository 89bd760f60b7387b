//! One round: the search under a plane, and what the lists of work get.

ghost use Rattle.std.specs.Prelude.{◌≡◌, ◌≤◌, ◌<◌, ◌+◌, ◌-◌, ◌^◌, ◌++◌, ◌∷◌, [], pos, ◌≤ℤ◌, length, unsigned_abs, IfSome};
ghost use Rattle.case_types.specs.declared.rounds.RoundEnd.TheVariants.{Spent};
ghost use Rattle.energy_surface.specs.Rounds.{round_end};
ghost use Rattle.energy_surface.specs.Searches.{low_of};
ghost use Rattle.energy_surface.specs.Surfaces.{under};
ghost use Rattle.box_search.specs.Found.{IsFound, units_of};
ghost use Rattle.surface_rounds.specs.Noted.{MakesRound, columns_of, round_noted};
ghost use Rattle.surface_rounds.specs.Polished.{IsKeptColumn, IsPolished};
ghost use Rattle.surface_rounds.specs.Room.{HasRoom, IsCounted};

use crate::guides::Guide;
use box_search::search;
use case_types::{Columns, Plane, Round, RoundEnd, Units, Work};
use energy_surface::{Found, Surface};

/// Searches under the plane, and keeps the round and the column that cuts the plane off.
///
/// `u` is the upper energy of the split, in 2^-40 bit.
pub fn round<S: Surface, G: Guide>(
    surface: &S,
    guide: &G,
    plane: &Plane,
    u: i128,
    delta: i128,
    work: &mut Work,
    units: &mut Units,
) -> Found
    requires guide { G.bounds guide.now ≡ S.bounds surface.now }
    requires delta_low { pos 1 ≤ℤ delta }
    requires delta_high { delta ≤ℤ pos (2 ^ 39) }
    requires room { HasRoom (units.old.budget - units.old.spent) work.old }
    requires counted { IsCounted units.old.spent work.old }
    ensures makes { MakesRound (under (S.bounds surface.now) plane.now.lam delta) plane.now u work.old work.new (units.new.spent - units.old.spent) result }
    ensures found { IsFound (under (S.bounds surface.now) plane.now.lam delta) units.new result }
    ensures small { IfSome (low_of result) (λ low. unsigned_abs low ≤ 2 ^ 107) }
    ensures budget { units.new.budget ≡ units.old.budget }
    ensures spent { units.old.spent + units_of result ≤ units.new.spent }
    ensures more { units_of result ≡ 1 → HasRoom (units.new.budget - units.new.spent) work.new × IsCounted units.new.spent work.new }
{
    let columns = work.columns.len() as u32;
    let pivots = work.pivots.len() as u32;
    let from = work.letters.len() as u32;
    let searched = search(surface, plane, delta, &mut work.letters, units);
    let found = polished(guide, plane, searched);
    work.rounds.push(Round {
        plane: *plane,
        u,
        columns,
        pivots,
        from,
        to: work.letters.len() as u32,
        end: end_of(&found),
    });
    keep(&mut work.columns, &found);
    found
}

/// What a search finds, with the polished column in place of the one that it found below the plane.
fn polished<G: Guide>(guide: &G, plane: &Plane, found: Found) -> Found
    requires { IsKeptColumn (G.bounds guide.now) found }
    ensures { IsPolished (G.bounds guide.now) plane.now found result }
{
    match found {
        Found::Refuted { column } => Found::Refuted {
            column: guide.polish(plane, column),
        },
        other => other,
    }
}

/// Notes the round that had no unit left for a pivot: the plane of the pure components, with one cell.
pub fn cut_short(work: &mut Work, plane: Plane, u: i128)
    requires letters { length work.old.letters.items + 1 < 2 ^ 32 }
    requires columns { length work.old.columns.items < 2 ^ 32 }
    requires pivots { length work.old.pivots.items < 2 ^ 32 }
    requires letters_room { 1 ≤ work.old.letters.spare }
    requires rounds_room { 1 ≤ work.old.rounds.spare }
    ensures noted { work.new.rounds.items
        ≡ work.old.rounds.items ++ round_noted plane u work.old work.new.letters Spent ∷ [] }
    ensures letter { work.new.letters.items ≡ work.old.letters.items ++ 112 ∷ [] }
    ensures columns { work.new.columns ≡ work.old.columns }
    ensures pivots { work.new.pivots ≡ work.old.pivots }
{
    let from = work.letters.len() as u32;
    work.letters.push(b'p');
    work.rounds.push(Round {
        plane,
        u,
        columns: work.columns.len() as u32,
        pivots: work.pivots.len() as u32,
        from,
        to: from + 1,
        end: RoundEnd::Spent,
    });
}

/// The end of a round, by its search.
fn end_of(found: &Found) -> RoundEnd
    ensures { result ≡ round_end found.now }
{
    match found {
        Found::AllClear { .. } => RoundEnd::Clear,
        Found::Refuted { .. } => RoundEnd::Refuted,
        Found::Spent { .. } => RoundEnd::Spent,
        Found::Grain { .. } => RoundEnd::Grain,
    }
}

/// Keeps the column of a search that cut its plane off.
fn keep(columns: &mut Columns, found: &Found)
    requires { units_of found.now ≤ columns.old.spare }
    ensures kept { columns.new.items ≡ columns.old.items ++ columns_of found.now }
    ensures longer { length columns.new.items ≡ length columns.old.items + units_of found.now }
    ensures room { columns.new.spare + units_of found.now ≡ columns.old.spare }
{
    if let Found::Refuted { column } = found {
        columns.push(*column);
    }
}
