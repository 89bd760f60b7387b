//! What is kept of four columns while prices and amounts are asked for.

ghost use Rattle.std.specs.Prelude.{ℕ, ℤ, ◌≡◌, ◌≤◌, ◌<◌, ◌+◌, ◌^◌, neg_ℤ, unsigned_abs, IsTrue};
ghost use Rattle.case_types.specs.Ranges.{is_each_below};
ghost use Rattle.energy_surface.specs.Program.Solutions.{signed_by};
ghost use Rattle.exact_lp.specs.Frames.{along as along_of, rows_in, IsFrame};

use crate::normals::{Point, Row, along, minors_of};

/// The size of a determinant of four rows, and for each row the signed minors.
///
/// Along a point the minors of a place are the amount of that place for the point, over the size.
#[derive(Clone, Copy)]
pub struct Frame {
    pub size: u128,
    pub first: Row,
    pub second: Row,
    pub third: Row,
    pub fourth: Row,
    pub ghost size_small: { size ≤ 2 ^ 80 },
    pub ghost first_small: { IsTrue (is_each_below 4 first.a (2 ^ 60 + 1)) },
    pub ghost second_small: { IsTrue (is_each_below 4 second.a (2 ^ 60 + 1)) },
    pub ghost third_small: { IsTrue (is_each_below 4 third.a (2 ^ 60 + 1)) },
    pub ghost fourth_small: { IsTrue (is_each_below 4 fourth.a (2 ^ 60 + 1)) },
}

/// The frame of four points.
pub fn frame_of(a: &Point, b: &Point, c: &Point, d: &Point) -> Frame
    ensures { IsFrame (rows_in a.now.x b.now.x c.now.x d.now.x) result.size result.first.a result.second.a result.third.a result.fourth.a }
{
    let first = minors_of(b, c, d);
    let second = minors_of(c, a, d);
    let third = minors_of(a, b, d);
    let fourth = minors_of(b, a, c);
    let determinant = along(&first, a);
    Frame {
        size: determinant.unsigned_abs(),
        first: directed(&first, determinant),
        second: directed(&second, determinant),
        third: directed(&third, determinant),
        fourth: directed(&fourth, determinant),
    }
}

/// The row, or the one with all signs turned where the determinant is negative.
fn directed(row: &Row, determinant: i128) -> Row
    requires small { IsTrue (is_each_below 4 row.now.a (2 ^ 60 + 1)) }
    ensures signed { (x : ℕ → ℤ) → along_of result.a x ≡ signed_by determinant (along_of row.now.a x) }
    ensures small { IsTrue (is_each_below 4 result.a (2 ^ 60 + 1)) }
{
    if determinant < 0 { opposite(row) } else { *row }
}

/// The row with all signs turned.
fn opposite(row: &Row) -> Row
    requires small { IsTrue (is_each_below 4 row.now.a (2 ^ 60 + 1)) }
    ensures turned { (x : ℕ → ℤ) → along_of result.a x ≡ neg_ℤ (along_of row.now.a x) }
    ensures small { IsTrue (is_each_below 4 result.a (2 ^ 60 + 1)) }
{
    let [a0, a1, a2, a3] = row.a;
    Row {
        a: [-a0, -a1, -a2, -a3],
    }
}
