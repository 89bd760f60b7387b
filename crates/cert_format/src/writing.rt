//! The text of a certificate.

ghost use Rattle.std.specs.Prelude.{◌≡◌, ◌++◌, ◌∷◌, [], OnOk, IfOk, codes, Some, slice_get};
ghost use Rattle.case_words.specs.Names.{text_of};
ghost use Rattle.dec_text.specs.Appending.{Adds};
ghost use Rattle.cert_lines.specs.Lines.{said_by, name_part, numbers_text, line_text};
ghost use Rattle.cert_lines.specs.Places.{places};
ghost use Rattle.cert_format.specs.Heads.{shape_of, line_of, head_text, text_with};

use crate::entries::{entry_at, shape_of};
use crate::heads::Head;
use case_types::Name;
use case_words::put_name;
use cert_lines::{Entry, Place, is_named, place_at, word_of};
use dec_text::{put_number, put_text};
use std::alloc::{AllocError, Global};

/// The most lines of a head.
const LINES: u32 = 37;

/// The text of a certificate: its head, the letters of its tree and the line `end`.
///
/// # Errors
///
/// Memory is wanting.
pub fn write_cert(alloc: Global, head: &Head, letters: &[u8]) -> Result<Vec<u8>, AllocError>
    ensures { IfOk result (λ v. v.items ≡ text_with head.now letters.now) }
{
    let mut out = Vec::new(alloc);
    put_cert(&mut out, head, letters)?;
    Ok(out)
}

/// Appends the text of a certificate.
///
/// # Errors
///
/// Memory is wanting.
pub fn put_cert(out: &mut Vec<u8>, head: &Head, letters: &[u8]) -> Result<(), AllocError>
    ensures { OnOk result (Adds out.old.items out.new.items (text_with head.now letters.now)) }
{
    put_head(out, head)?;
    put_letters(out, letters)?;
    Ok(())
}

/// Appends the letters of a tree and the line `end`.
///
/// # Errors
///
/// Memory is wanting.
pub fn put_letters(out: &mut Vec<u8>, letters: &[u8]) -> Result<(), AllocError>
    ensures { OnOk result (Adds out.old.items out.new.items (letters.now ++ 10 ∷ (codes "end" ++ 10 ∷ []))) }
{
    out.extend_from_slice(letters)?;
    put_text(out, "\nend\n")?;
    Ok(())
}

/// Appends what the head says, line by line.
///
/// # Errors
///
/// Memory is wanting.
pub fn put_head(out: &mut Vec<u8>, head: &Head) -> Result<(), AllocError>
    ensures { OnOk result (Adds out.old.items out.new.items (head_text head.now)) }
{
    let shape = shape_of(head);
    for at in 0..LINES {
        let Some(place) = place_at(shape, at) else {
            return Ok(());
        };
        put_line_at(out, head, at, place)?;
    }
    Ok(())
}

/// Appends the line at an index, with its newline.
fn put_line_at(out: &mut Vec<u8>, head: &Head, at: u32, place: Place) -> Result<(), AllocError>
    requires { slice_get (places (shape_of head.now)) at ≡ Some place }
    ensures { OnOk result (Adds out.old.items out.new.items (line_of head.now place ++ 10 ∷ [])) }
{
    put_line(out, word_of(place), is_named(place), &entry_at(head, place))
}

/// Appends a line: its word and what it says behind it, with its newline.
fn put_line(out: &mut Vec<u8>, word: &[u8], named: bool, entry: &Entry) -> Result<(), AllocError>
    ensures { OnOk result (Adds out.old.items out.new.items (line_text word.now named (said_by entry.now) ++ 10 ∷ [])) }
{
    out.extend_from_slice(word)?;
    put_name_part(out, named, &entry.name)?;
    put_numbers(out, entry.numbers.as_slice())?;
    put_text(out, "\n")?;
    Ok(())
}

/// Appends a space and the name, where a line has one.
fn put_name_part(out: &mut Vec<u8>, named: bool, name: &Name) -> Result<(), AllocError>
    ensures { OnOk result (Adds out.old.items out.new.items (name_part named (text_of name.now))) }
{
    if named {
        put_text(out, " ")?;
        put_name(out, name)?;
    }
    Ok(())
}

/// Appends each number behind a space.
fn put_numbers(out: &mut Vec<u8>, numbers: &[i128]) -> Result<(), AllocError>
    ensures { OnOk result (Adds out.old.items out.new.items (numbers_text numbers.now)) }
{
    for z in numbers {
        put_text(out, " ")?;
        put_number(out, *z)?;
    }
    Ok(())
}
