//! A linear form of fractions that add up to 1, over the ends that they lie between.
//!
//! The last fraction is what the others leave of 1, so the form is its number with a step for each of the others: the number
//! of that one less the number of the last.

ghost use Rattle.std.specs.Prelude.{ℕ, ◌≡◌, ◌≤◌, ◌<◌, ◌*◌, ◌^◌, ◌+ℤ◌, ◌-ℤ◌, ◌*ℤ◌, pos, neg_ℤ, unsigned_abs, slice_index, slice_index_or, IsTrue, nat_le};
ghost use Rattle.std.specs.Int.{int_max};
ghost use Rattle.log_laws.specs.Linear.{rises as rises_of, affine_high as high_end, affine_low as low_end};
ghost use Rattle.log_laws.specs.Sums.{all_below};
ghost use Rattle.log_laws.specs.Whole.{ceil_div};

/// 1 in 2^-40.
const ONE: i128 = 1 << 40;

/// The most of a form of at most four fractions from `lo` to `hi` in 2^-40, rounded up: `last` is the number of the fraction
/// `rest`, and each of those before it has its number less `less` for a step.
pub fn affine_high(
    rest: u8,
    last: i128,
    numbers: &[i128; 4],
    less: i128,
    lo: &[u64; 4],
    hi: &[u64; 4],
) -> i128
    requires few { rest ≤ 3 }
    requires last { unsigned_abs last ≤ 2 ^ 80 }
    requires numbers { IsTrue (all_below 4 (λ i. nat_le (unsigned_abs (slice_index_or numbers.now i (pos 0))) (2 ^ 80))) }
    requires less { unsigned_abs less ≤ 2 ^ 80 }
    requires ordered { IsTrue (all_below 4 (λ i. nat_le (slice_index lo.now i) (slice_index hi.now i))) }
    requires inside { IsTrue (all_below 4 (λ i. nat_le (slice_index hi.now i) (2 ^ 40))) }
    ensures value { result ≡ high_end rest last (λ i. slice_index_or numbers.now i (pos 0) -ℤ less) (slice_index lo.now) (slice_index hi.now) }
    ensures small { unsigned_abs result ≤ 2 ^ 83 }
{
    rounded_up(risen(last, rises(rest, numbers, less, lo, hi)))
}

/// The least of such a form, rounded down.
pub fn affine_low(
    rest: u8,
    last: i128,
    numbers: &[i128; 4],
    less: i128,
    lo: &[u64; 4],
    hi: &[u64; 4],
) -> i128
    requires few { rest ≤ 3 }
    requires last { unsigned_abs last ≤ 2 ^ 80 }
    requires numbers { IsTrue (all_below 4 (λ i. nat_le (unsigned_abs (slice_index_or numbers.now i (pos 0))) (2 ^ 80))) }
    requires less { unsigned_abs less ≤ 2 ^ 80 }
    requires ordered { IsTrue (all_below 4 (λ i. nat_le (slice_index lo.now i) (slice_index hi.now i))) }
    requires inside { IsTrue (all_below 4 (λ i. nat_le (slice_index hi.now i) (2 ^ 40))) }
    ensures value { result ≡ low_end rest last (λ i. slice_index_or numbers.now i (pos 0) -ℤ less) (slice_index lo.now) (slice_index hi.now) }
    ensures small { unsigned_abs result ≤ 2 ^ 83 }
{
    -affine_high(rest, -last, &opposites(numbers), -less, lo, hi)
}

/// The opposite numbers.
fn opposites(numbers: &[i128; 4]) -> [i128; 4]
    requires { IsTrue (all_below 4 (λ i. nat_le (unsigned_abs (slice_index_or numbers.now i (pos 0))) (2 ^ 80))) }
    ensures value { (i : ℕ) → i < 4 → slice_index_or result i (pos 0) ≡ neg_ℤ (slice_index_or numbers.now i (pos 0)) }
    ensures small { IsTrue (all_below 4 (λ i. nat_le (unsigned_abs (slice_index_or result i (pos 0))) (2 ^ 80))) }
{
    [-numbers[0], -numbers[1], -numbers[2], -numbers[3]]
}

/// What the fractions before the last one add, at most, in 2^-40.
fn rises(rest: u8, numbers: &[i128; 4], less: i128, lo: &[u64; 4], hi: &[u64; 4]) -> i128
    requires few { rest ≤ 3 }
    requires numbers { IsTrue (all_below 4 (λ i. nat_le (unsigned_abs (slice_index_or numbers.now i (pos 0))) (2 ^ 80))) }
    requires less { unsigned_abs less ≤ 2 ^ 80 }
    requires ordered { IsTrue (all_below 4 (λ i. nat_le (slice_index lo.now i) (slice_index hi.now i))) }
    requires inside { IsTrue (all_below 4 (λ i. nat_le (slice_index hi.now i) (2 ^ 40))) }
    ensures value { result ≡ rises_of rest (λ i. slice_index_or numbers.now i (pos 0) -ℤ less) (slice_index lo.now) (slice_index hi.now) }
    ensures small { unsigned_abs result ≤ 3 * 2 ^ 121 }
{
    let mut sum = 0;
    for i in 0..rest as usize {
        sum += rise(step(numbers[i], less), lo[i], hi[i]);
    }
    sum
}

/// A number less another.
fn step(number: i128, less: i128) -> i128
    requires number { unsigned_abs number ≤ 2 ^ 80 }
    requires less { unsigned_abs less ≤ 2 ^ 80 }
    ensures value { result ≡ number -ℤ less }
    ensures small { unsigned_abs result ≤ 2 ^ 81 }
{
    number - less
}

/// A step times a fraction from `lo` to `hi`, at most.
fn rise(step: i128, lo: u64, hi: u64) -> i128
    requires step { unsigned_abs step ≤ 2 ^ 81 }
    requires ordered { lo ≤ hi }
    requires inside { hi ≤ 2 ^ 40 }
    ensures value { result ≡ int_max (step *ℤ pos lo) (step *ℤ pos hi) }
    ensures small { unsigned_abs result ≤ 2 ^ 121 }
{
    if step < 0 {
        product(step, lo)
    } else {
        product(step, hi)
    }
}

/// A step times a fraction.
fn product(step: i128, fraction: u64) -> i128
    requires step { unsigned_abs step ≤ 2 ^ 81 }
    requires fraction { fraction ≤ 2 ^ 40 }
    ensures value { result ≡ step *ℤ pos fraction }
    ensures small { unsigned_abs result ≤ 2 ^ 121 }
{
    step * fraction as i128
}

/// The last number with what the others add, in 2^-40.
fn risen(last: i128, rises: i128) -> i128
    requires last { unsigned_abs last ≤ 2 ^ 80 }
    requires rises { unsigned_abs rises ≤ 3 * 2 ^ 121 }
    ensures value { result ≡ last *ℤ pos (2 ^ 40) +ℤ rises }
    ensures small { unsigned_abs result ≤ 7 * 2 ^ 120 }
{
    last * ONE + rises
}

/// A number in 2^-40, rounded up.
fn rounded_up(z: i128) -> i128
    requires { unsigned_abs z ≤ 7 * 2 ^ 120 }
    ensures value { result ≡ ceil_div z (pos (2 ^ 40)) }
    ensures small { unsigned_abs result ≤ 2 ^ 83 }
{
    -((-z) >> 40)
}
