//! Decimals from their texts.

ghost use Rattle.std.specs.Prelude.{◌≡◌, ◌≤◌, ◌+◌, ◌^◌, ◌++◌, ◌<◌, IfOk, length, slice_index_or};
ghost use Rattle.std.specs.Str.Parse.{digits_value, AllDigits};
ghost use Rattle.dec_text.specs.Decimals.{decimal_of, signed_decimal_of, unless, fault_of, size_of, filled, has_wrong_sign, is_decimal, has_more_places};

use crate::faults::DecFault;
use crate::forms::{
    has_only_zeros, is_minus_first, is_unsigned, places_of, unsigned_of, value_of, whole_digits_of,
};

/// The number of an unsigned decimal in units of the last of these places, or the first fault.
pub fn read_dec(text: &[u8], places: u32, max: u64) -> Result<u64, DecFault>
    requires places { places ≤ 4 }
    requires max { max ≤ 10 ^ 15 }
    ensures { result ≡ decimal_of places max text.now }
{
    read_size(text, false, places, max)
}

/// The number of a signed decimal in units of the last of these places, or the first fault.
pub fn read_signed(text: &[u8], places: u32, max: u64) -> Result<i64, DecFault>
    requires places { places ≤ 4 }
    requires max { max ≤ 10 ^ 15 }
    ensures { result ≡ signed_decimal_of places max text.now }
{
    let size = read_size(text, true, places, max)? as i64;
    Ok(if is_minus_first(text) { -size } else { size })
}

/// The size of a decimal's number, or the first fault.
fn read_size(text: &[u8], signed: bool, places: u32, max: u64) -> Result<u64, DecFault>
    requires places { places ≤ 4 }
    requires max { max ≤ 10 ^ 15 }
    ensures exact { result ≡ unless (fault_of signed places max text.now) (size_of places text.now) }
    ensures small { IfOk result (λ size. size ≤ max) }
{
    if text.is_empty() {
        return Err(DecFault::Empty);
    }
    if is_sign_wrong(text, signed) {
        return Err(DecFault::Sign);
    }
    if !is_decimal_form(text) {
        return Err(DecFault::Digit);
    }
    if has_digits_past(text, places) {
        return Err(DecFault::Places);
    }
    let unsigned = unsigned_of(text);
    let size = number_of(whole_digits_of(unsigned), places_of(unsigned), places);
    if size > u128::from(max) {
        return Err(DecFault::TooLarge);
    }
    Ok(size as u64)
}

/// A `+`, or a `-` where no signed number is wanted.
fn is_sign_wrong(text: &[u8], signed: bool) -> bool
    requires { 0 < length text.now }
    ensures { result ≡ has_wrong_sign signed text.now }
{
    text[0] == b'+' || !signed && text[0] == b'-'
}

/// At most 24 bytes: digits, and then, where there is a point, digits after it.
fn is_decimal_form(text: &[u8]) -> bool
    ensures { result ≡ is_decimal text.now }
{
    text.len() <= 24 && is_unsigned(unsigned_of(text))
}

/// A digit after the allowed places isn't 0.
fn has_digits_past(text: &[u8], places: u32) -> bool
    ensures { result ≡ has_more_places places text.now }
{
    let others = places_of(unsigned_of(text));
    others.len() > places as usize && !has_only_zeros(&others[places as usize..])
}

/// The number that these digits and so many digits of the places write.
fn number_of(digits: &[u8], others: &[u8], places: u32) -> u128
    requires digits { AllDigits 10 digits.now }
    requires others { AllDigits 10 others.now }
    requires short { length digits.now + places ≤ 28 }
    ensures { result ≡ digits_value 10 (digits.now ++ filled places others.now) }
{
    let mut number = value_of(digits);
    for i in 0..places as usize {
        number = number * 10 + u128::from(digit_or_zero(others, i) - b'0');
    }
    number
}

/// The digit at a place, or `0` past the end.
fn digit_or_zero(digits: &[u8], at: usize) -> u8
    ensures { result ≡ slice_index_or digits.now at 48 }
{
    if at < digits.len() { digits[at] } else { b'0' }
}
