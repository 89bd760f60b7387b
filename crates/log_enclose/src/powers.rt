//! Powers of 2, nearly.

ghost use Rattle.std.specs.Prelude.{◌≡◌, ◌≤◌, ◌<◌, ◌*◌, ◌+◌, ◌/◌, ◌^◌, ℕ, pos, ◌-ℤ◌, ◌*ℤ◌};

/// Nearly 2 to the power `v / 2^40`, in 2^-32: it serves as a guess alone.
///
/// Powers above 2^20 are answered as 2^20, those below 2^-32 as 2^-32. A whole power is exact.
pub fn exp2_near(v: i128) -> u128
    ensures low { 1 ≤ result }
    ensures high { result ≤ 2 ^ 52 }
    ensures exact { (k : ℕ) → k ≤ 52 → v ≡ (pos k -ℤ pos 32) *ℤ pos (2 ^ 40) → result ≡ 2 ^ k }
{
    let whole = v >> 40;
    if whole < -32 {
        return 1;
    }
    if whole >= 20 {
        return 1 << 52;
    }
    let fraction = (v - (whole << 40)) as u64;
    raised(mantissa(fraction), (whole + 32) as u32)
}

/// A mantissa in 2^-40 times a power of 2, as a whole number.
fn raised(mantissa: u128, places: u32) -> u128
    requires low { 2 ^ 40 ≤ mantissa }
    requires high { mantissa ≤ 2 ^ 41 }
    requires places { places ≤ 51 }
    ensures low { 1 ≤ result }
    ensures high { result ≤ 2 ^ 52 }
    ensures exact { mantissa ≡ 2 ^ 40 → result ≡ 2 ^ places }
{
    (mantissa << places) / ONE
}

/// 1 in 2^-40.
const ONE: u128 = 1 << 40;

/// Nearly 2 to the power of a fraction, in 2^-40: a polynomial of degree 5 whose error is below 2e-7.
fn mantissa(fraction: u64) -> u128
    requires { fraction < 2 ^ 40 }
    ensures low { 2 ^ 40 ≤ result }
    ensures high { result ≤ 2 ^ 41 }
    ensures exact { fraction ≡ 0 → result ≡ 2 ^ 40 }
{
    let fifth = term(0, 2_064_417_414, fraction);
    let fourth = term(fifth, 9_883_883_526, fraction);
    let third = term(fourth, 61_381_685_777, fraction);
    let second = term(third, 264_051_694_344, fraction);
    ONE + term(second, 762_129_863_812, fraction) as u128
}

/// The terms of a polynomial from one degree on, in 2^-40, from those of higher degrees and a coefficient.
fn term(higher: u64, coefficient: u64, fraction: u64) -> u64
    requires fraction { fraction < 2 ^ 40 }
    requires small { higher + coefficient ≤ 2 ^ 40 }
    ensures high { result ≤ higher + coefficient }
    ensures exact { fraction ≡ 0 → result ≡ 0 }
{
    ((higher + coefficient) as u128 * fraction as u128 / ONE) as u64
}
