//! Pieces of text, appended one after the other.

ghost use Rattle.std.specs.Prelude.{OnOk};
ghost use Rattle.dec_text.specs.Appending.{Adds};

use itoa::{Buffer, Integer};
use std::alloc::AllocError;

/// Appends a text.
///
/// # Errors
///
/// Memory is wanting.
pub fn put_text(out: &mut Vec<u8>, text: &str) -> Result<(), AllocError>
    ensures { OnOk result (Adds out.old.items out.new.items text.now) }
{
    out.extend_from_slice(text.as_bytes())
}

/// Appends a number.
///
/// # Errors
///
/// Memory is wanting.
pub fn put_number<I: Integer>(out: &mut Vec<u8>, n: I) -> Result<(), AllocError>
    ensures { OnOk result (Adds out.old.items out.new.items (I.text n)) }
{
    let mut buffer = Buffer::new();
    out.extend_from_slice(buffer.format(n).as_bytes())
}
