//! Fractions in 2^-20: those that are free, and the last, which is what they leave of 1.

ghost use Rattle.std.specs.Prelude.{◌≡◌, ◌≤◌, ◌-◌, ◌^◌, ◌==◌, cond, nat_lt, slice_index};
ghost use Rattle.case_types.specs.Grid.Cells.{free_sum as sum_of_free};
ghost use Rattle.log_laws.specs.Sums.{list_below};

use case_types::SLOTS;

/// 1 in 2^-20.
pub const WHOLE: u64 = 1 << 20;

/// What the free fractions of `n` components add up to.
pub fn free_sum(n: u8, fractions: &[u32; 3]) -> u64
    requires one { 1 ≤ n }
    requires four { n ≤ 4 }
    ensures { result ≡ sum_of_free n fractions.now }
{
    let mut sum = 0;
    for i in 0..(n - 1) as usize {
        sum += fractions[i] as u64;
    }
    sum
}

/// What is left of 1, and 0 where the others add up to more.
pub fn rest_of(sum: u64) -> u32
    ensures { result ≡ 2 ^ 20 - sum }
{
    WHOLE.saturating_sub(sum) as u32
}

/// The fractions of all components: the free ones of `n`, then the rest, then 0 for each component that isn't there.
pub fn composition(n: u8, free: &[u32; 3], rest: u32) -> [u32; SLOTS]
    requires one { 1 ≤ n }
    requires four { n ≤ 4 }
    ensures { result ≡ list_below 4 (λ i. cond (nat_lt i (n - 1)) (slice_index free.now i) (cond (i == n - 1) rest 0)) }
{
    [
        fraction(n, free, rest, 0),
        fraction(n, free, rest, 1),
        fraction(n, free, rest, 2),
        fraction(n, free, rest, 3),
    ]
}

/// The fraction of one component.
fn fraction(n: u8, free: &[u32; 3], rest: u32, i: u8) -> u32
    requires one { 1 ≤ n }
    requires four { n ≤ 4 }
    ensures { result ≡ cond (nat_lt i (n - 1)) (slice_index free.now i) (cond (i == n - 1) rest 0) }
{
    if i < n - 1 {
        free[i as usize]
    } else if i == n - 1 {
        rest
    } else {
        0
    }
}
