//! Whole numbers of one spelling.

ghost use Rattle.std.specs.Prelude.{◌≡◌};
ghost use Rattle.dec_text.specs.Decimals.{whole_of, is_whole};

use crate::faults::DecFault;
use crate::forms::{has_digits_alone, is_minus_first, unsigned_of, value_of};

/// A whole number of size below 2^126: `0`, or digits without a leading zero, with `-` for a negative one; or the first fault.
pub fn read_whole(text: &[u8]) -> Result<i128, DecFault>
    ensures { result ≡ whole_of text.now }
{
    if text.is_empty() {
        return Err(DecFault::Empty);
    }
    if !has_one_spelling(text) {
        return Err(DecFault::Digit);
    }
    let digits = unsigned_of(text);
    if digits.len() > 38 {
        return Err(DecFault::TooLarge);
    }
    let size = value_of(digits);
    if size >= 1 << 126 {
        return Err(DecFault::TooLarge);
    }
    let size = size as i128;
    Ok(if is_minus_first(text) { -size } else { size })
}

/// `0`, or digits of which the first isn't 0, the latter alone behind a `-`.
fn has_one_spelling(text: &[u8]) -> bool
    ensures { result ≡ is_whole text.now }
{
    let digits = unsigned_of(text);
    has_digits_alone(digits) && (digits[0] != b'0' || text.len() == 1)
}
