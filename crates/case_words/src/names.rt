//! Names of components.

ghost use Rattle.std.specs.Prelude.{◌≡◌, ◌&&◌, nat_le, length, OnOk};
ghost use Rattle.std.specs.List.{list_all};
ghost use Rattle.case_types.specs.Ranges.{is_name_byte};
ghost use Rattle.dec_text.specs.Appending.{Adds};
ghost use Rattle.case_words.specs.Answers.{Answers};
ghost use Rattle.case_words.specs.Names.{text_of, name_of};

use case_types::Name;
use dec_text::DecFault;
use std::alloc::AllocError;

/// A name of 1 to 16 bytes out of letters, digits, `_` and `-` of ASCII, or the fault of its text.
pub fn read_name(text: &[u8]) -> Result<Name, DecFault>
    ensures { Answers text_of (name_of text.now) result }
{
    if text.is_empty() {
        return Err(DecFault::Empty);
    }
    if !is_spelled(text) {
        return Err(DecFault::Digit);
    }
    let mut bytes = [0; 16];
    for (i, b) in text.iter().enumerate() {
        bytes[i] = *b;
    }
    Ok(Name {
        len: text.len() as u8,
        bytes,
    })
}

/// The bytes of a name.
pub fn name_text(name: &Name) -> &[u8]
    ensures { result.now ≡ text_of name.now }
{
    &name.bytes[..name.len as usize]
}

/// Appends a name.
///
/// # Errors
///
/// Memory is wanting.
pub fn put_name(out: &mut Vec<u8>, name: &Name) -> Result<(), AllocError>
    ensures { OnOk result (Adds out.old.items out.new.items (text_of name.now)) }
{
    out.extend_from_slice(name_text(name))
}

/// At most 16 bytes, and none but those of names.
fn is_spelled(text: &[u8]) -> bool
    ensures { result ≡ (nat_le (length text.now) 16 && list_all is_name_byte text.now) }
{
    text.len() <= 16 && has_name_bytes(text)
}

/// No byte but those of names.
fn has_name_bytes(text: &[u8]) -> bool
    ensures { result ≡ list_all is_name_byte text.now }
{
    text.iter().all(|b| is_in_names(*b))
}

/// A letter, a digit, `_` or `-` of ASCII.
fn is_in_names(b: u8) -> bool
    ensures { result ≡ is_name_byte b }
{
    matches!(b, b'a'..=b'z' | b'A'..=b'Z' | b'0'..=b'9' | b'_' | b'-')
}
