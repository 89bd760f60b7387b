//! What is known of an energy surface: its bounds.

ghost use Rattle.std.specs.Prelude.{ℕ, ◌≡◌, ◌≤◌, ◌<◌, ◌^◌, ◌+◌, ◌/◌, List, ℤ, pos, neg_ℤ, ◌<ℤ◌, unsigned_abs, None, IfSome, IfNone, IsFalse};
ghost use Rattle.case_types.specs.declared.parts.MixLow.{MixLow};
ghost use Rattle.case_types.specs.declared.parts.MixSlope.{MixSlope};
ghost use Rattle.case_types.specs.declared.parts.MixUp.{MixUp};
ghost use Rattle.case_types.specs.declared.parts.PackingLogs.{PackingLogs};
ghost use Rattle.case_types.specs.declared.parts.PackingSlope.{PackingSlope};

use case_types::{BoxX, Cell, MixLow, MixSlope, MixUp, PackingLogs, PackingSlope, Plane};

/// An energy surface of one to four components, by its bounds in 2^-40 bit.
///
/// A bound of the energy is made of two parts: of the box of compositions, and of packing fractions. A half of a cell has
/// one of them from the cell. What the numbers of a part stand for is said by the surface.
pub trait Surface {
    ghost use Rattle.case_types.specs.Arithmetic.Bounds.{Box, box_of};
    ghost use Rattle.case_types.specs.Grid.Cells.{Region, region_of, misses};
    ghost use Rattle.energy_surface.specs.Surfaces.{Surface as Bounds};

    /// How many components, and the bounds as they are defined.
    ghost bounds: { Self → Bounds };

    /// It is the part of lower bounds that belongs to this box.
    ghost is_mix_low: { Self → Box → MixLow → Type 0 };

    /// It is the part of upper bounds that belongs to this box.
    ghost is_mix_up: { Self → Box → MixUp → Type 0 };

    /// They are the logarithms at this packing fraction.
    ghost are_logs: { Self → ℕ → PackingLogs → Type 0 };

    /// It is the part of slope lows that belongs to the plane and to these ends of the free fractions.
    ghost is_mix_slope: { Self → List ℤ → List ℕ → List ℕ → MixSlope → Type 0 };

    /// It is the part of slope lows that belongs to these ends of the packing fraction.
    ghost is_packing_slope: { Self → ℕ → ℕ → PackingSlope → Type 0 };

    /// How many components the surface has.
    fn count(&self) -> u8
        ensures value { result ≡ (bounds self.now).count }
        ensures one { 1 ≤ result }
        ensures four { result ≤ 4 };

    /// The part of lower bounds over the box.
    fn mix_low(&self, x: &BoxX) -> MixLow
        ensures { is_mix_low self.now (box_of x.now) result };

    /// The part of upper bounds over the box.
    fn mix_up(&self, x: &BoxX) -> MixUp
        ensures { is_mix_up self.now (box_of x.now) result };

    /// The logarithms at a packing fraction, in 2^-40.
    fn logs(&self, y: u64) -> PackingLogs
        requires { y ≤ 2 ^ 40 }
        ensures at { result.packing ≡ y }
        ensures logs { are_logs self.now y result };

    /// The energy at every composition of a box and every packing fraction from one to another is at least this.
    fn low(&self, mix: &MixLow, from: &PackingLogs, to: &PackingLogs) -> i128
        requires ordered { from.now.packing ≤ to.now.packing }
        requires room { from.now.packing < 2 ^ 40 }
        requires some { 1 ≤ to.now.packing }
        ensures value { (x : Box) (yl yh : ℕ) → is_mix_low self.now x mix.now → are_logs self.now yl from.now → are_logs self.now yh to.now →
            result ≡ (bounds self.now).low x yl yh }
        ensures small { unsigned_abs result ≤ 2 ^ 106 };

    /// The energy at every composition of a box and at a packing fraction is at most this. It is never as deep as -2^49, and
    /// below 2^49 at half the densest packing.
    fn up(&self, mix: &MixUp, logs: &PackingLogs) -> i128
        requires some { 1 ≤ logs.now.packing }
        requires inside { logs.now.packing < 2 ^ 40 }
        ensures value { (x : Box) (y : ℕ) → is_mix_up self.now x mix.now → are_logs self.now y logs.now → result ≡ (bounds self.now).up x y }
        ensures small { unsigned_abs result ≤ 2 ^ 106 }
        ensures at_half { (x : Box) → is_mix_up self.now x mix.now → are_logs self.now (2 ^ 39) logs.now → unsigned_abs result < 2 ^ 49 }
        ensures not_deep { (x : Box) (y : ℕ) → is_mix_up self.now x mix.now → are_logs self.now y logs.now → neg_ℤ (pos (2 ^ 49)) <ℤ result };

    /// What slope lows over a cell have of its compositions and of the plane, where they have it.
    fn mix_slope(&self, plane: &Plane, cell: &Cell) -> Option<MixSlope>
        requires meets { IsFalse (misses (bounds self.now).count (region_of cell.now)) }
        ensures some { IfSome result (is_mix_slope self.now plane.now.lam cell.now.lo cell.now.hi) }
        ensures none { IfNone result ((r : Region) → r.lo ≡ cell.now.lo → r.hi ≡ cell.now.hi → (bounds self.now).slope plane.now.lam r ≡ None) };

    /// What slope lows have of the packing fractions from one to another, with the logarithms at both and in the middle.
    fn packing_slope(
        &self,
        from: &PackingLogs,
        middle: &PackingLogs,
        to: &PackingLogs,
    ) -> Option<PackingSlope>
        requires room { from.now.packing < to.now.packing }
        requires middle { middle.now.packing ≡ (from.now.packing + to.now.packing) / 2 }
        requires from { are_logs self.now from.now.packing from.now }
        requires at_middle { are_logs self.now middle.now.packing middle.now }
        requires to { are_logs self.now to.now.packing to.now }
        ensures some { IfSome result (is_packing_slope self.now from.now.packing to.now.packing) }
        ensures none { IfNone result ((lam : List ℤ) (r : Region) → r.ylo ≡ from.now.packing → r.yhi ≡ to.now.packing → (bounds self.now).slope lam r ≡ None) };

    /// Over the cell the energy lies above the plane by at least this, where slopes give such a number.
    fn slope(&self, mix: &MixSlope, packing: &PackingSlope) -> Option<i128>
        ensures value { (lam : List ℤ) (r : Region) → is_mix_slope self.now lam r.lo r.hi mix.now → is_packing_slope self.now r.ylo r.yhi packing.now →
            result ≡ (bounds self.now).slope lam r }
        ensures small { IfSome result (λ z. unsigned_abs z ≤ 2 ^ 107) };
}
