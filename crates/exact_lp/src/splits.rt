//! The weights of the columns of a basis, and its split.

ghost use Rattle.std.specs.Prelude.{ℕ, ◌≡◌, ◌≤◌, ◌<◌, ◌+◌, ◌*◌, ◌^◌, ◌++◌, length, unsigned_abs, slice_index};
ghost use Rattle.case_types.specs.Energy.Divisions.{Divides, division_of};
ghost use Rattle.energy_surface.specs.Program.Bases.{AreColumns, IsBasis};
ghost use Rattle.energy_surface.specs.Program.Splits.{IsBasisSplit, live_part, weighted_phase, weighted_phases};
ghost use Rattle.exact_lp.specs.Weighed.{AreWeights};

use crate::pivoting::amounts_for;
use crate::points::{Basis, basis_frame, live_point};
use arrayvec::ArrayVec;
use case_types::{Case, Column, Columns, Phase, SLOTS, Split};

/// How much the columns of a basis weigh for the feed.
#[derive(Clone, Copy, Debug, PartialEq, Eq)]
pub struct BasisWeights {
    /// What stands for one mole of the feed: its total times the size of the determinant.
    pub sum: u128,
    /// The weight of the column at each place. Those past the live components have no meaning.
    pub of: [u128; SLOTS],
}

/// The weights of a basis: its amounts for the feed. A column of weight `w` has `w*2^20` parts of the sum.
pub fn weights(case: &Case, columns: &Columns, basis: &Basis) -> BasisWeights
    requires columns { AreColumns case.now.n columns.now.items }
    requires basis { IsBasis case.now columns.now.items basis.now.at }
    ensures { AreWeights case.now columns.now.items basis.now.at result }
{
    let frame = basis_frame(case.n, columns, basis);
    let [a, b, c, d] = amounts_for(&frame, &live_point(case.n, &case.z)).u;
    BasisWeights {
        sum: case.total as u128 * frame.size,
        of: [
            a.unsigned_abs(),
            b.unsigned_abs(),
            c.unsigned_abs(),
            d.unsigned_abs(),
        ],
    }
}

/// The split of a basis: its columns as phases, by their weights. It is a division of the feed, exactly.
///
/// A column without a weight is no phase.
pub fn amounts(case: &Case, columns: &Columns, basis: &Basis) -> Split
    requires columns { AreColumns case.now.n columns.now.items }
    requires basis { IsBasis case.now columns.now.items basis.now.at }
    ensures split { IsBasisSplit case.now columns.now.items basis.now.at result }
    ensures divides { Divides case.now (division_of result) }
{
    let weights = weights(case, columns, basis);
    let mut phases: ArrayVec<Phase, SLOTS> = ArrayVec::new();
    for k in 0..case.n as usize {
        let column = columns.get(basis.at[k] as usize);
        add_phase(case.n, column, weights.of[k], &mut phases);
    }
    Split {
        sum: weights.sum,
        phases,
    }
}

/// Adds a column as a phase, where it has an amount.
fn add_phase(n: u8, column: &Column, weight: u128, phases: &mut ArrayVec<Phase, SLOTS>)
    requires small { weight ≤ 2 ^ 80 }
    requires room { length phases.old.items < 4 }
    ensures { phases.new.items ≡ phases.old.items ++ weighted_phases n weight column.now }
{
    if weight == 0 {
        return;
    }
    phases.push(phase_of(n, weight, column));
}

/// A column as a phase.
fn phase_of(n: u8, weight: u128, column: &Column) -> Phase
    requires small { weight ≤ 2 ^ 80 }
    ensures { result ≡ weighted_phase n weight column.now }
{
    Phase {
        parts: [
            part(n, weight, &column.comp, 0),
            part(n, weight, &column.comp, 1),
            part(n, weight, &column.comp, 2),
            part(n, weight, &column.comp, 3),
        ],
        packing: column.packing,
    }
}

/// The parts of a component, where it is live.
fn part(n: u8, weight: u128, x: &[u32; SLOTS], i: usize) -> u128
    requires place { i < 4 }
    requires small { weight ≤ 2 ^ 80 }
    ensures { result ≡ live_part n weight x.now i }
{
    if i < n as usize {
        weight * x[i] as u128
    } else {
        0
    }
}
