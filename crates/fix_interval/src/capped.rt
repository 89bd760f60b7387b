//! Ends that may be too large.

ghost use Rattle.std.specs.Prelude.{◌≡◌, ◌<◌, ◌^◌, ◌≤ℤ◌, ◌↔◌, IsSome, IfSome, unsigned_abs};

use log_laws::Iv;

/// The interval from `lo` to `hi`; `None` where they are out of order, or one has size 2^61 or
/// more.
pub fn cap(lo: i128, hi: i128) -> Option<Iv>
    ensures some { IsSome result ↔
        ((lo ≤ℤ hi) × (unsigned_abs lo < 2 ^ 61) × (unsigned_abs hi < 2 ^ 61)) }
    ensures ends { IfSome result (λ v. (v.lo ≡ lo) × (v.hi ≡ hi)) }
{
    const CAP: u128 = 1 << 61;
    if lo > hi || lo.unsigned_abs() >= CAP || hi.unsigned_abs() >= CAP {
        return None;
    }
    Some(Iv { lo, hi })
}
