//! Roots of whole numbers.

ghost use Rattle.std.specs.Prelude.{◌≡◌, ◌+◌, ◌*◌, ◌<◌, ◌≤◌};
ghost use Rattle.log_laws.specs.Roots.{floor_root};

/// The root of `n`, rounded down: the greatest whole number whose square is at most `n`.
pub fn isqrt(n: u128) -> u64
    ensures value { result ≡ floor_root n }
    ensures square { result * result ≤ n }
    ensures next_square { n < (result + 1) * (result + 1) }
{
    n.isqrt() as u64
}
