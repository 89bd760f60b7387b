//! Numbers kept to a range.

ghost use Rattle.std.specs.Prelude.{◌≤◌, ◌^◌, unsigned_abs};

/// The greatest size of an answer: 2^20 bit.
const MOST: i128 = 1 << 60;

/// The number, or the end of the range that it lies beyond.
pub fn kept(z: i128) -> i128
    ensures small { unsigned_abs result ≤ 2 ^ 60 }
{
    z.clamp(-MOST, MOST)
}
