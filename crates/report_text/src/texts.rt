//! Pieces of text, appended one after the other.

ghost use Rattle.std.specs.Prelude.{◌≡◌, ◌*◌, ◌/◌, ◌^◌, ◌<◌, ◌≤◌, OnOk};
ghost use Rattle.dec_text.specs.Printed.{fixed_text};
ghost use Rattle.dec_text.specs.Appending.{Adds};
ghost use Rattle.report_text.specs.Pieces.{line, ends_line, millionths_text, outcome_text};
ghost use Rattle.report_text.specs.ReportText.{state_text};
ghost use Rattle.log_laws.specs.Interval.{ends_of};

use case_types::Outcome;
use dec_text::{fixed, put_number, put_text};
use itoa::Integer;
use log_laws::Iv;
use std::alloc::AllocError;

/// Appends a label, a number and the end of the line.
pub fn put_line<I: Integer>(out: &mut Vec<u8>, label: &str, n: I) -> Result<(), AllocError>
    ensures { OnOk result (Adds out.old.items out.new.items (line label.now (I.text n))) }
{
    put_text(out, label)?;
    put_number(out, n)?;
    put_text(out, "\n")?;
    Ok(())
}

/// Appends a label and the ends of an interval.
pub fn put_ends(out: &mut Vec<u8>, label: &str, ends: Iv) -> Result<(), AllocError>
    ensures { OnOk result (Adds out.old.items out.new.items (ends_line label.now (ends_of ends))) }
{
    put_text(out, label)?;
    put_number(out, ends.lo)?;
    put_line(out, " ", ends.hi)?;
    Ok(())
}

/// Appends a number of units of the last place, with so many places.
pub fn put_fixed(out: &mut Vec<u8>, n: i128, places: u32) -> Result<(), AllocError>
    requires some { 1 ≤ places }
    requires few { places ≤ 6 }
    ensures { OnOk result (Adds out.old.items out.new.items (fixed_text n places)) }
{
    out.extend_from_slice(fixed(n, places).as_bytes())
}

/// Appends a label, a number of units of the last place, with so many places, and the end of the line.
pub fn put_fixed_line(
    out: &mut Vec<u8>,
    label: &str,
    n: i128,
    places: u32,
) -> Result<(), AllocError>
    requires some { 1 ≤ places }
    requires few { places ≤ 6 }
    ensures { OnOk result (Adds out.old.items out.new.items (line label.now (fixed_text n places))) }
{
    put_text(out, label)?;
    put_fixed(out, n, places)?;
    put_text(out, "\n")?;
    Ok(())
}

/// Appends a label, a part in millionths of a whole, rounded down, and the end of the line.
pub fn put_millionths(
    out: &mut Vec<u8>,
    label: &str,
    part: u128,
    whole: u128,
) -> Result<(), AllocError>
    requires { part < 2 ^ 106 }
    ensures { OnOk result (Adds out.old.items out.new.items (line label.now (millionths_text part whole))) }
{
    put_fixed_line(out, label, millionths(part, whole) as i128, 6)
}

/// A part in millionths of a whole, rounded down; 0 of no whole.
fn millionths(part: u128, whole: u128) -> u128
    requires { part < 2 ^ 106 }
    ensures value { result ≡ part * 10 ^ 6 / whole }
    ensures small { result < 2 ^ 126 }
{
    if whole == 0 {
        0
    } else {
        part * 1_000_000 / whole
    }
}

/// How a flash ended.
pub fn outcome_of(outcome: &Outcome) -> &'static str
    ensures { result.now ≡ outcome_text outcome.now }
{
    match outcome {
        Outcome::Closed => "closed",
        Outcome::Spent => "open spent",
        Outcome::Grain(_) => "open grain",
    }
}

/// Whether a phase is called liquid or vapour.
pub fn label_of(packing: u64) -> &'static str
    ensures { result.now ≡ state_text packing }
{
    if 10_000 * u128::from(packing) >= 2531 << 40 {
        " liquid"
    } else {
        " vapour"
    }
}
