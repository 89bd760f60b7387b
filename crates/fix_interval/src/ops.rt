//! Sums, differences and hulls.

ghost use Rattle.std.specs.Prelude.{◌≡◌, ℕ, ◌<◌, ◌^◌, ◌+ℤ◌, ◌-ℤ◌, unsigned_abs, ◌⊎◌};
ghost use Rattle.std.specs.Int.{int_min, int_max};
ghost use Rattle.log_laws.specs.Fraction.{Fraction, sum_of, difference};
ghost use Rattle.log_laws.specs.Between.{IsBetween};
ghost use Rattle.log_laws.specs.Interval.{ends_of};

use log_laws::Iv;

/// The interval of the sums of a value of `a` and a value of `b`, all three at one scale. Nothing
/// is rounded. The ends of the result are to be of size below 2^62.
pub fn add(a: Iv, b: Iv) -> Iv
    requires lo_fits { unsigned_abs (a.lo +ℤ b.lo) < 2 ^ 62 }
    requires hi_fits { unsigned_abs (a.hi +ℤ b.hi) < 2 ^ 62 }
    ensures lo { result.lo ≡ a.lo +ℤ b.lo }
    ensures hi { result.hi ≡ a.hi +ℤ b.hi }
    ensures holds { (f g : Fraction) (s : ℕ) →
        IsBetween (ends_of a) s f → IsBetween (ends_of b) s g →
        IsBetween (ends_of result) s (sum_of f g) }
{
    Iv {
        lo: a.lo + b.lo,
        hi: a.hi + b.hi,
    }
}

/// The interval of the differences of a value of `a` and a value of `b`, all three at one scale.
/// Nothing is rounded. The ends of the result are to be of size below 2^62.
pub fn sub(a: Iv, b: Iv) -> Iv
    requires lo_fits { unsigned_abs (a.lo -ℤ b.hi) < 2 ^ 62 }
    requires hi_fits { unsigned_abs (a.hi -ℤ b.lo) < 2 ^ 62 }
    ensures lo { result.lo ≡ a.lo -ℤ b.hi }
    ensures hi { result.hi ≡ a.hi -ℤ b.lo }
    ensures holds { (f g : Fraction) (s : ℕ) →
        IsBetween (ends_of a) s f → IsBetween (ends_of b) s g →
        IsBetween (ends_of result) s (difference f g) }
{
    Iv {
        lo: a.lo - b.hi,
        hi: a.hi - b.lo,
    }
}

/// The least interval that holds the values of `a` and those of `b`, all three at one scale.
/// Nothing is rounded.
pub fn hull(a: Iv, b: Iv) -> Iv
    ensures lo { result.lo ≡ int_min a.lo b.lo }
    ensures hi { result.hi ≡ int_max a.hi b.hi }
    ensures holds { (f : Fraction) (s : ℕ) →
        IsBetween (ends_of a) s f ⊎ IsBetween (ends_of b) s f →
        IsBetween (ends_of result) s f }
{
    Iv {
        lo: a.lo.min(b.lo),
        hi: a.hi.max(b.hi),
    }
}
