//! The columns near the phases of a split.

ghost use Rattle.std.specs.Prelude.{◌≡◌, ◌≤◌, ◌<◌, ◌++◌, IfSome, IfNone, IsTrue, IsFalse, length};
ghost use Rattle.std.specs.List.{All};
ghost use Rattle.case_types.specs.Energy.Divisions.{Divides, division_of};
ghost use Rattle.energy_surface.specs.Columns.{IsColumn};
ghost use Rattle.candidate_split.specs.Columns.{column_near as column_of_near, column_there, columns_near, has_column, point_near};
ghost use Rattle.candidate_split.specs.Phases.{IsCounted};

use crate::grid::to_grid;
use arrayvec::ArrayVec;
use box_search::column_at;
use case_types::{Case, Column, Phase, SLOTS, Split};
use energy_surface::Surface;

/// The columns at the grid points of the phases, in order: their compositions on the grid of 2^-20, at their packing fractions.
///
/// A phase whose upper energy at its grid point is of size 2^49 or more, in 2^-40 bit, has none.
pub fn columns_of<S: Surface>(surface: &S, case: &Case, split: &Split) -> ArrayVec<Column, SLOTS>
    requires components { case.now.n ≡ (S.bounds surface.now).count }
    requires divides { Divides case.now (division_of split.now) }
    ensures columns { result.items ≡ columns_near (S.bounds surface.now) case.now.n split.now.phases.items }
    ensures each { All (IsColumn (S.bounds surface.now)) result.items }
    ensures few { length result.items ≤ length split.now.phases.items }
{
    let mut columns: ArrayVec<Column, SLOTS> = ArrayVec::new();
    for phase in split.phases.iter() {
        add_column(surface, case, phase, &mut columns);
    }
    columns
}

/// Adds the column near a phase, where there is one.
fn add_column<S: Surface>(
    surface: &S,
    case: &Case,
    phase: &Phase,
    columns: &mut ArrayVec<Column, SLOTS>,
)
    requires components { case.now.n ≡ (S.bounds surface.now).count }
    requires phase { IsCounted case.now.n phase.now }
    requires room { length columns.old.items < 4 }
    ensures grown { columns.new.items ≡ columns.old.items ++ column_of_near (S.bounds surface.now) case.now.n phase.now }
    ensures each { All (IsColumn (S.bounds surface.now)) (column_of_near (S.bounds surface.now) case.now.n phase.now) }
{
    if let Some(column) = column_near(surface, case, phase) {
        columns.push(column);
    }
}

/// The column at the grid point of a phase, where its upper energy allows one.
fn column_near<S: Surface>(surface: &S, case: &Case, phase: &Phase) -> Option<Column>
    requires components { case.now.n ≡ (S.bounds surface.now).count }
    requires phase { IsCounted case.now.n phase.now }
    ensures column { IfSome result (IsColumn (S.bounds surface.now)) }
    ensures there { IfSome result (λ c. c ≡ column_there (S.bounds surface.now) (point_near case.now.n phase.now)) }
    ensures some { IfSome result (λ c. IsTrue (has_column (S.bounds surface.now) (point_near case.now.n phase.now))) }
    ensures none { IfNone result (IsFalse (has_column (S.bounds surface.now) (point_near case.now.n phase.now))) }
{
    column_at(surface, to_grid(case.n, &phase.parts), phase.packing)
}
