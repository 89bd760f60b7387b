//! The parts of a number's text, and their form.

ghost use Rattle.std.specs.Prelude.{◌≡◌, ◌≤◌, ◌==◌, length};
ghost use Rattle.std.specs.List.{position_or_len, list_all};
ghost use Rattle.std.specs.Char.{is_ascii_digit};
ghost use Rattle.std.specs.Str.Parse.{digits_value, AllDigits};
ghost use Rattle.dec_text.specs.Decimals.{is_negative, without_minus, are_digits, is_point, is_unsigned_decimal, whole_part, places_part};

/// Whether the text begins with `-`.
pub fn is_minus_first(text: &[u8]) -> bool
    ensures { result ≡ is_negative text.now }
{
    !text.is_empty() && text[0] == b'-'
}

/// What follows the `-`, if there is one.
pub fn unsigned_of(text: &[u8]) -> &[u8]
    ensures { result.now ≡ without_minus text.now }
{
    if is_minus_first(text) {
        &text[1..]
    } else {
        text
    }
}

/// No byte but digits.
fn has_no_other(text: &[u8]) -> bool
    ensures { result ≡ list_all is_ascii_digit text.now }
{
    text.iter().all(|b| b.is_ascii_digit())
}

/// One digit or more, and nothing else.
pub fn has_digits_alone(text: &[u8]) -> bool
    ensures { result ≡ are_digits text.now }
{
    !text.is_empty() && has_no_other(text)
}

/// Digits, and then, where there is a point, digits after it.
pub fn is_unsigned(text: &[u8]) -> bool
    ensures { result ≡ is_unsigned_decimal text.now }
{
    has_digits_alone(whole_digits_of(text))
        && (point_of(text) == text.len() || has_digits_alone(places_of(text)))
}

/// The place of the point, or the length where there is none.
fn point_of(text: &[u8]) -> usize
    ensures at { result ≡ position_or_len is_point text.now }
    ensures inside { result ≤ length text.now }
{
    for (i, b) in text.iter().enumerate() {
        if *b == b'.' {
            return i;
        }
    }
    text.len()
}

/// The bytes before the point.
pub fn whole_digits_of(text: &[u8]) -> &[u8]
    ensures { result.now ≡ whole_part text.now }
{
    &text[..point_of(text)]
}

/// The bytes after the point.
pub fn places_of(text: &[u8]) -> &[u8]
    ensures { result.now ≡ places_part text.now }
{
    let point = point_of(text);
    if point == text.len() {
        &[]
    } else {
        &text[point + 1..]
    }
}

/// No byte but `0`.
pub fn has_only_zeros(text: &[u8]) -> bool
    ensures { result ≡ list_all (λ b. b == 48) text.now }
{
    text.iter().all(|b| *b == b'0')
}

/// The number that these digits write.
pub fn value_of(digits: &[u8]) -> u128
    requires digits { AllDigits 10 digits.now }
    requires short { length digits.now ≤ 38 }
    ensures { result ≡ digits_value 10 digits.now }
{
    let mut number = 0;
    for b in digits {
        number = number * 10 + u128::from(*b - b'0');
    }
    number
}
