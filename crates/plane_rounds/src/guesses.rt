//! The guesses of a near flash.

ghost use Rattle.std.specs.Prelude.{◌≡◌, ◌≤◌, ◌+◌, ◌++◌, All, length};
ghost use Rattle.case_types.specs.Arithmetic.Numbers.{numbers_of};
ghost use Rattle.candidate_split.specs.Candidates.{IsCandidate};
ghost use Rattle.energy_surface.specs.Columns.{IsColumn};
ghost use Rattle.pr_surface.specs.PengRobinson.{surface_of};

use arrayvec::ArrayVec;
use candidate_split::{candidates, columns_of, polish};
use case_types::{BoxX, Column, Plane, SLOTS, Split};
use cubic_roots::packings;
use pr_params::Params;
use pr_surface::PengRobinson;
use surface_rounds::{COLUMNS, Guesses, Guide, PACKINGS, SPLITS};

/// The guesses of a near flash: its candidates with the columns near their phases, the packing fractions that balance the
/// pressure, and steps of successive substitution.
#[derive(Clone, Copy)]
pub struct NearFlash<'a, 'b> {
    pub surface: PengRobinson<'a, 'b>,
}

impl Guide for NearFlash<'_, '_> {
    ghost bounds = { λ g. surface_of (numbers_of g.surface.params.now.case) };

    ghost feed = { λ g. g.surface.params.now.case };

    fn guesses(&self) -> Guesses {
        let splits = candidates(self.surface.params);
        let columns = columns_near(&self.surface, &splits);
        Guesses { splits, columns }
    }

    fn packings(&self, x: &BoxX) -> ArrayVec<u64, PACKINGS> {
        packings(self.surface.params, x)
    }

    fn polish(&self, plane: &Plane, column: Column) -> Column {
        polish(&self.surface, self.surface.params, plane, column)
    }
}

/// The columns near the phases of all splits, in their order.
fn columns_near(
    surface: &PengRobinson,
    splits: &ArrayVec<Split, SPLITS>,
) -> ArrayVec<Column, COLUMNS>
    requires { All (IsCandidate surface.now.params.now.case) splits.now.items }
    ensures { All (IsColumn (surface_of (numbers_of surface.now.params.now.case))) result.items }
{
    let params: &Params = surface.params;
    let mut columns: ArrayVec<Column, COLUMNS> = ArrayVec::new();
    for k in 0..splits.len() {
        put(&columns_of(surface, &params.case, &splits[k]), &mut columns);
    }
    columns
}

/// Puts columns at the end of others.
fn put(from: &ArrayVec<Column, SLOTS>, to: &mut ArrayVec<Column, COLUMNS>)
    requires { length to.old.items + length from.now.items ≤ 32 }
    ensures { to.new.items ≡ to.old.items ++ from.now.items }
{
    for k in 0..from.len() {
        to.push(from[k]);
    }
}
