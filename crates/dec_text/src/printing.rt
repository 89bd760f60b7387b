//! Printed numbers.

ghost use Rattle.std.specs.Prelude.{◌≡◌, ◌≤◌, ◌<◌, ◌^◌, ◌++◌};
ghost use Rattle.std.specs.Fmt.{signed_decimal, decimal};
ghost use Rattle.dec_text.specs.Printed.{fixed_text, filled_decimal};
ghost use Rattle.arrayvec.specs.ArrayString.{array_string_len};

use arrayvec::ArrayString;
use itoa::Buffer;

/// The text of one number.
pub type Text = ArrayString<64>;

/// The digits of a whole number, with `-` for a negative one.
pub fn whole(v: i128) -> Text
    ensures { result.bytes ≡ signed_decimal v }
{
    let mut buffer = Buffer::new();
    let mut text = Text::new();
    text.push_str(buffer.format(v));
    text
}

/// A number of units of the last place, with so many places: `fixed(-1500, 3)` is `-1.500`.
pub fn fixed(v: i128, places: u32) -> Text
    requires some { 1 ≤ places }
    requires few { places ≤ 6 }
    ensures { result.bytes ≡ fixed_text v places }
{
    let unit = 10u128.pow(places);
    let size = v.unsigned_abs();
    let mut text = Text::new();
    if v < 0 {
        text.push('-');
    }
    put_decimal(&mut text, size / unit);
    text.push('.');
    put_filled(&mut text, size % unit, places);
    text
}

/// Appends the digits of a number.
fn put_decimal(text: &mut Text, n: u128)
    requires { array_string_len text.old ≤ 1 }
    ensures bytes { text.new.bytes ≡ text.old.bytes ++ decimal n }
    ensures room { array_string_len text.new ≤ 41 }
{
    let mut buffer = Buffer::new();
    text.push_str(buffer.format(n));
}

/// Appends the digits of a number, filled with zeros at the front up to so many places.
fn put_filled(text: &mut Text, n: u128, places: u32)
    requires some { 1 ≤ places }
    requires few { places ≤ 6 }
    requires fits { n < 10 ^ places }
    requires room { array_string_len text.old ≤ 42 }
    ensures { text.new.bytes ≡ text.old.bytes ++ filled_decimal places n }
{
    let mut buffer = Buffer::new();
    let digits = buffer.format(n);
    for _i in digits.len()..places as usize {
        text.push_str("0");
    }
    text.push_str(digits);
}
