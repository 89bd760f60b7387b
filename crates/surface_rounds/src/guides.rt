//! Guesses of the phases, with which the rounds begin.

use arrayvec::ArrayVec;
use case_types::{BoxX, Column, Plane, Split};
use split_energies::PACKINGS;

/// The most splits that are guessed.
pub const SPLITS: usize = 8;

/// The most columns that are guessed.
pub const COLUMNS: usize = 32;

/// Splits of the feed that may have nearly the least energy, and columns near their phases.
#[derive(Drop)]
pub struct Guesses {
    pub splits: ArrayVec<Split, SPLITS>,
    pub columns: ArrayVec<Column, COLUMNS>,
}

/// What guesses the phases of a case, over an energy surface.
///
/// How near the guesses are to the phases of least energy decides how soon a flash closes. Nothing that is proved of the flash
/// rests on it.
pub trait Guide {
    ghost use Rattle.std.specs.Prelude.{All};
    ghost use Rattle.case_types.specs.declared.cases.Case.{Case};
    ghost use Rattle.energy_surface.specs.Columns.{IsColumn};
    ghost use Rattle.energy_surface.specs.Surfaces.{Surface as Bounds};
    ghost use Rattle.split_energies.specs.Scanned.{IsInside};
    ghost use Rattle.surface_rounds.specs.Guessing.{IsGuess, LiesNoHigher};

    /// The bounds of the surface.
    ghost bounds: { Self → Bounds };

    /// The case whose feed is divided.
    ghost feed: { Self → Case };

    /// Splits of the feed, and columns.
    fn guesses(&self) -> Guesses
        ensures splits { All (IsGuess (bounds self.now) (feed self.now)) result.splits.items }
        ensures columns { All (IsColumn (bounds self.now)) result.columns.items };

    /// Packing fractions of phases at a composition of the box, in 2^-40.
    fn packings(&self, x: &BoxX) -> ArrayVec<u64, PACKINGS>
        ensures { All IsInside result.items };

    /// The column, or one that lies lower against the plane.
    fn polish(&self, plane: &Plane, column: Column) -> Column
        requires { IsColumn (bounds self.now) column }
        ensures column { IsColumn (bounds self.now) result }
        ensures no_higher { LiesNoHigher (bounds self.now) plane.now result column };
}
