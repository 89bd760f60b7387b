//! Pivots to an optimum, as long as there are units.

ghost use Rattle.std.specs.Prelude.{◌≡◌, ◌≤◌, ◌-◌, IsSome};
ghost use Rattle.energy_surface.specs.Program.Bases.{AreColumns, IsBasis};
ghost use Rattle.energy_surface.specs.Program.Pivots.{IsPriced};
ghost use Rattle.surface_rounds.specs.Flashing.{Pivoted};

use case_types::{Case, Columns, Pivot, Pivots, Units};
use exact_lp::{Basis, pivot, price};

/// Pivots until no column has a negative price. Where no unit is left before, it answers the column that is to enter.
pub fn optimize(
    case: &Case,
    columns: &Columns,
    basis: &mut Basis,
    pivots: &mut Pivots,
    units: &mut Units,
) -> Option<u32>
    requires columns { AreColumns case.now.n columns.now.items }
    requires basis { IsBasis case.now columns.now.items basis.old.at }
    requires room { units.old.budget - units.old.spent ≤ pivots.old.spare }
    ensures priced { IsPriced case.now.n columns.now.items basis.new.at result }
    ensures basis { IsBasis case.now columns.now.items basis.new.at }
    ensures pivoted { Pivoted case.now columns.now.items basis.old.at basis.new.at pivots.old pivots.new (units.new.spent - units.old.spent) }
    ensures spent { units.old.spent ≤ units.new.spent }
    ensures budget { units.new.budget ≡ units.old.budget }
    ensures all_spent { IsSome result → units.new.spent ≡ units.new.budget }
{
    while let Some(enter) = price(case, columns, basis) {
        if units.is_spent() {
            return Some(enter);
        }
        units.spend();
        let leave = pivot(case, columns, basis, enter);
        pivots.push(Pivot { enter, leave });
    }
    None
}
