//! The search.

ghost use Rattle.std.specs.Prelude.{◌≡◌, ◌≤◌, ◌+◌, ◌-◌, ◌*◌, ◌^◌, ◌∷◌, ℤ, length, IfSome, pos, ◌≤ℤ◌, unsigned_abs};
ghost use Rattle.case_types.specs.Grid.Cells.{Region, letter_of, Halves};
ghost use Rattle.energy_surface.specs.Searches.{low_of};
ghost use Rattle.energy_surface.specs.Surfaces.{under};
ghost use Rattle.box_search.specs.Found.{IsFound, IsRootOpen, units_of};
ghost use Rattle.box_search.specs.Leaves.{IsLeft};
ghost use Rattle.box_search.specs.Parts.{meanings, HaveParts};
ghost use Rattle.box_search.specs.Written.{Writes, WritesSome, Closes, Searches};

use crate::halves::{halves, whole};
use crate::leaves::{Leaf, left, see};
use crate::middles::{middle_of, refuting};
use crate::stack::Stack;
use case_types::{Letters, Plane, Units};
use density_boxes::{PACKING, edge_to_halve, is_unit, misses};
use energy_surface::{Found, Surface};

/// No low of a cell is above this, in 2^-40 bit.
const HIGHEST: i128 = 1 << 107;

/// Searches the whole domain for a grid point below the plane by more than `delta`, in 2^-40 bit.
///
/// A cell is cleared where the energy lies above the plane less `delta` all over it. Each halving costs a unit, and so
/// does a refutation. `letters` gets the letters of this search behind what it holds.
pub fn search<S: Surface>(
    surface: &S,
    plane: &Plane,
    delta: i128,
    letters: &mut Letters,
    units: &mut Units,
) -> Found
    requires delta_low { pos 1 ≤ℤ delta }
    requires delta_high { delta ≤ℤ pos (2 ^ 39) }
    requires room { 2 * (units.old.budget - units.old.spent) + 200 ≤ letters.old.spare }
    ensures found { IsFound (under (S.bounds surface.now) plane.now.lam delta) units.new result }
    ensures small { IfSome (low_of result) (λ low. unsigned_abs low ≤ 2 ^ 107) }
    ensures root { IsRootOpen (under (S.bounds surface.now) plane.now.lam delta) result }
    ensures letters { Writes letters.old letters.new (units.new.spent - units.old.spent) }
    ensures searched { Searches (under (S.bounds surface.now) plane.now.lam delta) letters.old.items letters.new.items (units.new.spent - units.old.spent) result }
    ensures budget { units.new.budget ≡ units.old.budget }
    ensures spent { units.old.spent + units_of result ≤ units.new.spent }
{
    let n = surface.count();
    let mut stack = Stack::new(whole(surface));
    let mut low = HIGHEST;
    while let Some(half) = stack.pop() {
        if misses(n, &half.cell) {
            letters.push(b'm');
            continue;
        }
        let seen = see(surface, plane, delta, &half);
        let Some(made) = &seen.made else {
            letters.push(seen.leaf.letter);
            low = smaller(low, seen.leaf.low);
            continue;
        };
        let middle = middle_of(surface, &half, &made.slopes.middle);
        if let Some(column) = refuting(surface, plane, delta, &middle) {
            if units.is_spent() {
                let low = close(surface, plane, low, &seen.leaf, letters, stack);
                return Found::Spent { low };
            }
            units.spend();
            return Found::Refuted { column };
        }
        let edge = edge_to_halve(n, &half.cell);
        if is_unit(&half.cell, edge) {
            let low = close(surface, plane, low, &seen.leaf, letters, stack);
            let cell = half.cell;
            return Found::Grain { low, cell };
        }
        if units.is_spent() {
            let low = close(surface, plane, low, &seen.leaf, letters, stack);
            return Found::Spent { low };
        }
        units.spend();
        letters.push(edge_letter(edge));
        let (lower, upper) = halves(&half, edge, made, &middle);
        stack.push_halves(lower, upper);
    }
    Found::AllClear { low }
}

/// The letter of a halving along this edge: `1`, `2` and `3` for a fraction, `y` for the packing.
fn edge_letter(edge: u8) -> u8
    requires { edge ≤ 3 }
    ensures { result ≡ letter_of (Halves edge) }
{
    if edge == PACKING { b'y' } else { b'1' + edge }
}

/// Writes the leaf letters of the cell in hand and of the cells that are left, and answers the least low.
fn close<S: Surface>(
    surface: &S,
    plane: &Plane,
    low: i128,
    hand: &Leaf,
    letters: &mut Letters,
    mut stack: Stack,
) -> i128
    requires room { length stack.regions + 1 ≤ letters.old.spare }
    requires small { unsigned_abs low ≤ 2 ^ 107 }
    requires hand_small { unsigned_abs hand.now.low ≤ 2 ^ 107 }
    requires parts { HaveParts (meanings (S.bounds surface.now).count (S.is_mix_low surface.now) (S.is_mix_up surface.now) (S.are_logs surface.now) (S.is_mix_slope surface.now) (S.is_packing_slope surface.now)) plane.now.lam stack.halves }
    ensures hand { result ≤ℤ hand.now.low }
    ensures small { unsigned_abs result ≤ 2 ^ 107 }
    ensures letters { WritesSome letters.old letters.new (length stack.regions + 1) }
    ensures closes { (r : Region) → IsLeft (S.bounds surface.now) plane.now.lam r hand.now → Closes (S.bounds surface.now) plane.now.lam low (r ∷ stack.regions) letters.old.items letters.new.items result }
{
    let n = surface.count();
    letters.push(hand.letter);
    let mut low = smaller(low, hand.low);
    while let Some(half) = stack.pop() {
        if misses(n, &half.cell) {
            letters.push(b'm');
        } else {
            let leaf = left(surface, plane, &half);
            letters.push(leaf.letter);
            low = smaller(low, leaf.low);
        }
    }
    low
}

/// The lesser number.
fn smaller(a: i128, b: i128) -> i128
    ensures first { result ≤ℤ a }
    ensures second { result ≤ℤ b }
    ensures either { (z : ℤ) → z ≤ℤ a → z ≤ℤ b → z ≤ℤ result }
{
    if a <= b { a } else { b }
}
