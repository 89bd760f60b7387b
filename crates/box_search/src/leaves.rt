//! The lows of a cell, and the leaf that it becomes by them.

ghost use Rattle.std.specs.Prelude.{◌≡◌, ◌≤◌, ◌^◌, List, ℤ, neg_ℤ, pos, ◌≤ℤ◌, ◌<ℤ◌, unsigned_abs, IsFalse, IfSome, IfNone};
ghost use Rattle.case_types.specs.Grid.Cells.{Region, region_of, misses};
ghost use Rattle.energy_surface.specs.Searches.{IsUncleared};
ghost use Rattle.energy_surface.specs.Surfaces.{Surface as Bounds, under, plain_low, slope_low};
ghost use Rattle.box_search.specs.Leaves.{Clears, IsLeft};
ghost use Rattle.box_search.specs.Parts.{meanings, HasParts, IsMade};

use crate::looks::look;
use crate::parts::{Half, Made};
use crate::slopes::slope_of;
use case_types::Plane;
use energy_surface::Surface;

/// The letter of a leaf, `p` or `s`, and the low by that letter in 2^-40 bit.
#[derive(Clone, Copy)]
pub struct Leaf {
    pub letter: u8,
    pub low: i128,
}

/// A cell with its lows.
#[derive(Clone, Copy)]
pub struct Seen {
    /// The leaf that it is if a low clears it, or else if it is left.
    pub leaf: Leaf,
    /// What was made for it, if no low clears it.
    pub made: Option<Made>,
}

/// Whether a low clears a cell: the plain low, or else the slope low, which is made only then.
pub fn see<S: Surface>(surface: &S, plane: &Plane, delta: i128, half: &Half) -> Seen
    requires delta_low { pos 1 ≤ℤ delta }
    requires delta_high { delta ≤ℤ pos (2 ^ 39) }
    requires meets { IsFalse (misses (S.bounds surface.now).count (region_of half.now.cell)) }
    requires parts { HasParts (meanings (S.bounds surface.now).count (S.is_mix_low surface.now) (S.is_mix_up surface.now) (S.are_logs surface.now) (S.is_mix_slope surface.now) (S.is_packing_slope surface.now)) plane.now.lam half.now }
    ensures small { unsigned_abs result.leaf.low ≤ 2 ^ 107 }
    ensures cleared { IfNone result.made (Clears (under (S.bounds surface.now) plane.now.lam delta) (region_of half.now.cell) result.leaf) }
    ensures above { IfNone result.made (neg_ℤ delta ≤ℤ result.leaf.low) }
    ensures uncleared { IfSome result.made (λ m. IsUncleared (under (S.bounds surface.now) plane.now.lam delta) (region_of half.now.cell)) }
    ensures left { IfSome result.made (λ m. IsLeft (S.bounds surface.now) plane.now.lam (region_of half.now.cell) result.leaf) }
    ensures below { IfSome result.made (λ m. result.leaf.low <ℤ neg_ℤ delta) }
    ensures made { IfSome result.made (IsMade (meanings (S.bounds surface.now).count (S.is_mix_low surface.now) (S.is_mix_up surface.now) (S.are_logs surface.now) (S.is_mix_slope surface.now) (S.is_packing_slope surface.now)) plane.now.lam (region_of half.now.cell)) }
{
    let looked = look(surface, plane, half);
    if looked.low >= -delta {
        return Seen {
            leaf: Leaf {
                letter: b'p',
                low: looked.low,
            },
            made: None,
        };
    }
    let sloped = slope_of(surface, plane, half);
    let leaf = by_greater(looked.low, sloped.low);
    if leaf.low >= -delta {
        return Seen { leaf, made: None };
    }
    Seen {
        leaf,
        made: Some(Made {
            over: looked.over,
            slopes: sloped.slopes,
        }),
    }
}

/// The leaf of a cell that is left: both of its lows are made.
pub fn left<S: Surface>(surface: &S, plane: &Plane, half: &Half) -> Leaf
    requires meets { IsFalse (misses (S.bounds surface.now).count (region_of half.now.cell)) }
    requires parts { HasParts (meanings (S.bounds surface.now).count (S.is_mix_low surface.now) (S.is_mix_up surface.now) (S.are_logs surface.now) (S.is_mix_slope surface.now) (S.is_packing_slope surface.now)) plane.now.lam half.now }
    ensures small { unsigned_abs result.low ≤ 2 ^ 107 }
    ensures left { IsLeft (S.bounds surface.now) plane.now.lam (region_of half.now.cell) result }
{
    let plain = look(surface, plane, half);
    let sloped = slope_of(surface, plane, half);
    by_greater(plain.low, sloped.low)
}

/// The leaf by the slope low where it is there and above the plain low, else by the plain low.
fn by_greater(plain: i128, sloped: Option<i128>) -> Leaf
    requires plain { unsigned_abs plain ≤ 2 ^ 107 }
    requires sloped { IfSome sloped (λ z. unsigned_abs z ≤ 2 ^ 107) }
    ensures small { unsigned_abs result.low ≤ 2 ^ 107 }
    ensures left { (s : Bounds) (lam : List ℤ) (r : Region) → IsFalse (misses s.count r) → plain ≡ plain_low s lam r → sloped ≡ slope_low s lam r → IsLeft s lam r result }
{
    if let Some(low) = sloped {
        if plain < low {
            return Leaf { letter: b's', low };
        }
    }
    Leaf {
        letter: b'p',
        low: plain,
    }
}
