//! The split that a round chooses.

ghost use Rattle.std.specs.Prelude.{ℕ, ◌≡◌, ◌≤◌, ◌<◌, ◌*◌, ◌^◌, length, pos, ◌≤ℤ◌, ◌<ℤ◌, unsigned_abs, All, IfSome, IfNone, slice_get};
ghost use Rattle.case_types.specs.declared.rounds.Column.{Column};
ghost use Rattle.energy_surface.specs.Program.Bases.{AreColumns, IsBasis};
ghost use Rattle.surface_rounds.specs.Choices.{columns_up, IsLeast, IsChosen, IsSplitBy, IsPlace};
ghost use Rattle.surface_rounds.specs.Rivals.{energy_at};

use crate::rivals::RIVALS;
use crate::splits::Rival;
use arrayvec::ArrayVec;
use case_types::{Case, Columns, Split};
use exact_lp::{Basis, amounts, weights};
use split_energies::energy_share;

/// Which split of the feed is chosen.
#[derive(Clone, Copy, Debug, PartialEq, Eq)]
pub enum Choice {
    /// The rival at a place.
    Rival(usize),
    /// The split of the basis.
    OfBasis,
}

/// A choice with the upper energy of its split.
#[derive(Clone, Copy, Debug, PartialEq, Eq)]
pub struct Chosen {
    pub choice: Choice,
    /// In 2^-40 bit for a mole of feed.
    pub u: i128,
}

/// The first of the rivals, and last of all the split of the basis, whose upper energy lies above the least one by no more than
/// the slack, in 2^-40 bit.
pub fn choose(
    case: &Case,
    columns: &Columns,
    basis: &Basis,
    rivals: &ArrayVec<Rival, RIVALS>,
    slack: i128,
) -> Chosen
    requires columns { AreColumns case.now.n columns.now.items }
    requires ups { All (λ (col : Column). unsigned_abs col.up < 2 ^ 49) columns.now.items }
    requires basis { IsBasis case.now columns.now.items basis.now.at }
    requires slack_low { pos 0 ≤ℤ slack }
    requires slack_high { slack ≤ℤ pos (2 ^ 34) }
    ensures chosen { IsChosen rivals.now.items (columns_up case.now columns.now.items basis.now.at) slack result }
    ensures small { unsigned_abs result.u ≤ 2 ^ 109 }
{
    let u = basis_energy(case, columns, basis);
    let limit = least(rivals, u) + slack;
    match first_within(rivals, limit) {
        Some(k) => Chosen {
            choice: Choice::Rival(k),
            u: energy(rivals, k),
        },
        None => Chosen {
            choice: Choice::OfBasis,
            u,
        },
    }
}

/// The least upper energy of the rivals and of the basis, in 2^-40 bit.
fn least(rivals: &ArrayVec<Rival, RIVALS>, basis: i128) -> i128
    requires { unsigned_abs basis ≤ 2 ^ 109 }
    ensures least { IsLeast rivals.now.items (length rivals.now.items) basis result }
    ensures small { unsigned_abs result ≤ 2 ^ 109 }
{
    let mut least = basis;
    for k in 0..rivals.len() {
        let next = energy(rivals, k);
        if next < least {
            least = next;
        }
    }
    least
}

/// The place of the first rival whose upper energy is at most the limit, in 2^-40 bit.
fn first_within(rivals: &ArrayVec<Rival, RIVALS>, limit: i128) -> Option<usize>
    ensures inside { IfSome result (λ k. k < length rivals.now.items) }
    ensures within { IfSome result (λ k. energy_at rivals.now.items k ≤ℤ limit) }
    ensures first { IfSome result (λ k. (j : ℕ) → j < k → limit <ℤ energy_at rivals.now.items j) }
    ensures none { IfNone result ((j : ℕ) → j < length rivals.now.items → limit <ℤ energy_at rivals.now.items j) }
{
    for k in 0..rivals.len() {
        if energy(rivals, k) <= limit {
            return Some(k);
        }
    }
    None
}

/// The upper energy of the rival at a place, in 2^-40 bit for a mole of feed.
fn energy(rivals: &ArrayVec<Rival, RIVALS>, k: usize) -> i128
    requires { k < length rivals.now.items }
    ensures value { result ≡ energy_at rivals.now.items k }
    ensures small { unsigned_abs result ≤ 2 ^ 109 }
{
    rivals[k].u
}

/// The upper energy of the split of a basis, in 2^-40 bit for a mole of feed: those of its columns, each by its share.
fn basis_energy(case: &Case, columns: &Columns, basis: &Basis) -> i128
    requires columns { AreColumns case.now.n columns.now.items }
    requires ups { All (λ (col : Column). unsigned_abs col.up < 2 ^ 49) columns.now.items }
    requires basis { IsBasis case.now columns.now.items basis.now.at }
    ensures value { result ≡ columns_up case.now columns.now.items basis.now.at }
    ensures small { unsigned_abs result ≤ 2 ^ 109 }
{
    let weights = weights(case, columns, basis);
    let mut energy = 0;
    for k in 0..case.n as usize {
        let up = columns.get(basis.at[k] as usize).up as i128;
        energy += energy_share(weights.of[k] * (1 << 20), weights.sum, up);
    }
    energy
}

/// The split that is chosen.
pub fn split_by(
    case: &Case,
    columns: &Columns,
    basis: &Basis,
    rivals: ArrayVec<Rival, RIVALS>,
    choice: Choice,
) -> Split
    requires columns { AreColumns case.now.n columns.now.items }
    requires basis { IsBasis case.now columns.now.items basis.now.at }
    requires place { IsPlace rivals.items choice }
    ensures { IsSplitBy case.now columns.now.items basis.now.at rivals.items choice result }
{
    match choice {
        Choice::Rival(k) => taken(rivals, k),
        Choice::OfBasis => amounts(case, columns, basis),
    }
}

/// The split of the rival at a place.
fn taken(rivals: ArrayVec<Rival, RIVALS>, k: usize) -> Split
    requires { k < length rivals.items }
    ensures { IfSome (slice_get rivals.items k) (λ r. result ≡ r.split) }
{
    let mut rivals = rivals;
    let Rival { split, .. } = rivals.remove(k);
    split
}
