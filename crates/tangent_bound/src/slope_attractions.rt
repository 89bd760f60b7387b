//! The form of the mean attraction over a cell.

ghost use Rattle.std.specs.Prelude.{◌≡◌, ◌<◌, pos, Some, slice_index};
ghost use Rattle.log_laws.specs.Interval.{ends, ends_of};
ghost use Rattle.case_types.specs.Arithmetic.Bounds.{attraction_high, attraction_low};
ghost use Rattle.case_types.specs.Arithmetic.Numbers.{numbers_of};
ghost use Rattle.case_types.specs.Grid.Cells.{Region, box_of_region};
ghost use Rattle.slope_form.specs.Arithmetic.{both, capped, ends_if, product_of_ends};
ghost use Rattle.slope_form.specs.Forms.{form_if, point_ends};
ghost use Rattle.tangent_bound.specs.SlopeLows.{attraction_form as attraction_form_of, attraction_number, lifted_attraction, outward as outward_of, pair_at_centre, share_of_attraction, sum_of_all as sum_of_entries};
ghost use Rattle.tangent_bound.specs.SlopeParts.{AreFractions};

use crate::fractions::Fractions;
use crate::mix_forms::{mix_form, sum_of_all};
use crate::slope_means::{outward, point};
use fix_interval::{cap, outward as rounded_outward};
use log_laws::{Iv, Slope};
use pr_params::{Params, attraction_of, attraction_range};
use slope_form::{product, sum};

/// The mean attraction, lifted.
pub fn attraction_form(params: &Params, x: &Fractions) -> Option<Slope>
    ensures { (r : Region) → AreFractions (numbers_of params.now.case).count r x.now → form_if result ≡ attraction_form_of (numbers_of params.now.case) r }
{
    let n = params.case.n;
    let rows = [
        row_in_middle(params, x, 0),
        row_in_middle(params, x, 1),
        row_in_middle(params, x, 2),
        row_in_middle(params, x, 3),
    ];
    let numbers = [
        number(params, x, 0),
        number(params, x, 1),
        number(params, x, 2),
        number(params, x, 3),
    ];
    mix_form(n, sum_of_all(n, &rows), lifted_range(params, x), &numbers)
}

/// The range of the mean attraction, lifted.
fn lifted_range(params: &Params, x: &Fractions) -> Option<Iv>
    ensures { (r : Region) → AreFractions (numbers_of params.now.case).count r x.now →
        let range = outward_of 9 (ends (attraction_low (numbers_of params.now.case) (box_of_region (numbers_of params.now.case).count r)) (attraction_high (numbers_of params.now.case) (box_of_region (numbers_of params.now.case).count r))) in
        ends_if result ≡ capped range.lo range.hi }
{
    let (low, high) = attraction_range(params, &x.ends);
    let (lo, _) = rounded_outward(low, low, 9);
    let (_, hi) = rounded_outward(high, high, 9);
    cap(lo, hi)
}

/// The attractions of the component `i` with all, in the mean in the middle.
fn row_in_middle(params: &Params, x: &Fractions, i: u8) -> Option<Iv>
    requires { i < 4 }
    ensures { (r : Region) → AreFractions (numbers_of params.now.case).count r x.now → i < params.now.case.n →
        ends_if result ≡ sum_of_entries (numbers_of params.now.case).count (pair_at_centre (numbers_of params.now.case) r i) }
{
    if i >= params.case.n {
        return None;
    }
    let pairs = [
        pair(params, x, i, 0),
        pair(params, x, i, 1),
        pair(params, x, i, 2),
        pair(params, x, i, 3),
    ];
    sum_of_all(params.case.n, &pairs)
}

/// The attraction of two components in the mean in the middle.
fn pair(params: &Params, x: &Fractions, i: u8, j: u8) -> Option<Iv>
    requires first { i < 4 }
    requires second { j < 4 }
    ensures { (r : Region) → AreFractions (numbers_of params.now.case).count r x.now → i < params.now.case.n → j < params.now.case.n →
        ends_if result ≡ pair_at_centre (numbers_of params.now.case) r i j }
{
    let fractions = product(fraction(x, i), fraction(x, j));
    product_of_both(fractions, attraction(params, i, j))
}

/// The attraction of two components, lifted, and none for one that isn't live.
fn attraction(params: &Params, i: u8, j: u8) -> Option<Iv>
    ensures { i < params.now.case.n → j < params.now.case.n → ends_if result ≡ Some (lifted_attraction (numbers_of params.now.case) i j) }
{
    if i < params.case.n && j < params.case.n {
        Some(outward(attraction_of(params, i, j), 9))
    } else {
        None
    }
}

/// The number of the component `i`: its attractions, each times the sum of the other's fraction in the middle and over the cell.
fn number(params: &Params, x: &Fractions, i: u8) -> Option<Iv>
    requires { i < 4 }
    ensures { (r : Region) → AreFractions (numbers_of params.now.case).count r x.now → i < params.now.case.n →
        ends_if result ≡ attraction_number (numbers_of params.now.case) r i }
{
    if i >= params.case.n {
        return None;
    }
    let shares = [
        share(params, x, i, 0),
        share(params, x, i, 1),
        share(params, x, i, 2),
        share(params, x, i, 3),
    ];
    sum_of_all(params.case.n, &shares)
}

/// The attraction of two components times the sum of the second one's fraction in the middle and over the cell.
fn share(params: &Params, x: &Fractions, i: u8, j: u8) -> Option<Iv>
    requires first { i < 4 }
    requires second { j < 4 }
    ensures { (r : Region) → AreFractions (numbers_of params.now.case).count r x.now → i < params.now.case.n → j < params.now.case.n →
        ends_if result ≡ share_of_attraction (numbers_of params.now.case) r i j }
{
    let fractions = sum(fraction(x, j), range(x, j));
    product_of_both(attraction(params, i, j), fractions)
}

/// The fraction of the component `i` in the middle, as an interval.
fn fraction(x: &Fractions, i: u8) -> Iv
    requires { i < 4 }
    ensures { ends_of result ≡ point_ends (slice_index x.now.middle i) }
{
    point(x.middle_of(i))
}

/// The fractions of the component `i` over the cell.
fn range(x: &Fractions, i: u8) -> Iv
    requires { i < 4 }
    ensures { ends_of result ≡ ends (pos (slice_index x.now.ends.a i)) (pos (slice_index x.now.ends.b i)) }
{
    Iv {
        lo: x.ends.a[i as usize] as i128,
        hi: x.ends.b[i as usize] as i128,
    }
}

/// The product of two numbers, where both are there.
fn product_of_both(a: Option<Iv>, b: Option<Iv>) -> Option<Iv>
    ensures { ends_if result ≡ both product_of_ends (ends_if a) (ends_if b) }
{
    product(a?, b?)
}
