//! Laws of surfaces: what lows and upper energies promise, and what no list of work of a lawful answer can be.

ghost use Rattle.energy_surface.specs.Energies.{WeakDuality, LowsCertify, UppersCertify};
ghost use Rattle.energy_surface.specs.WorkLaws.{SomeRound, UnitsAreWork, SpentHasWorked, ColumnsAreKept, PlanesFall, ClosedIsNear};

/// A plane that the energy of every state is above by a low is below every division of the feed by that low.
pub fn weak_duality()
    ensures { WeakDuality }
{}

/// Where a surface bounds an energy, a low for a tree of the whole domain bounds every division of the feed.
pub fn lows_certify()
    ensures { LowsCertify }
{}

/// Where a surface bounds an energy, the upper energy of a split bounds the energy of the split.
pub fn uppers_certify()
    ensures { UppersCertify }
{}

/// A lawful answer has a round.
pub fn some_round()
    ensures { SomeRound }
{}

/// Each unit of a lawful answer is a halving, a refutation or a pivot of its list of work.
pub fn units_are_work()
    ensures { UnitsAreWork }
{}

/// A budget is never spent without work.
pub fn spent_has_worked()
    ensures { SpentHasWorked }
{}

/// Each refutation keeps a column, beside the pure ones and at most 32 candidates.
pub fn columns_are_kept()
    ensures { ColumnsAreKept }
{}

/// No plane is searched twice: each lies below every one before it, at the column that cut that one off.
pub fn planes_fall()
    ensures { PlanesFall }
{}

/// A closed answer has a gap of at most three quarters of the tolerance.
pub fn closed_is_near()
    ensures { ClosedIsNear }
{}
