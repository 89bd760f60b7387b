//! The text of a search for a phase boundary.

ghost use Rattle.std.specs.Prelude.{◌≡◌, OnOk};
ghost use Rattle.dec_text.specs.Appending.{Adds};
ghost use Rattle.report_text.specs.EdgeText.{kind_text, quantity_text, place_text, places_text, kinds_text, gaps_text, both_text, stopped_text, refused_text, edge_text};

use crate::refusals::put_range_fault;
use crate::texts::{outcome_of, put_fixed, put_line};
use case_types::{EdgeAnswer, EdgeEnd, Kind, Outcome, ParamFault};
use case_words::By;
use dec_text::{put_number, put_text};
use std::alloc::AllocError;

/// Appends what a search over this quantity came to.
pub fn put_edge(out: &mut Vec<u8>, by: By, answer: &EdgeAnswer) -> Result<(), AllocError>
    ensures { OnOk result (Adds out.old.items out.new.items (edge_text by answer.now)) }
{
    match answer {
        EdgeAnswer::Bracket { lo, hi } => put_both(out, "bracket", by, lo, hi),
        EdgeAnswer::NoEdge { lo, hi } => put_both(out, "no-edge", by, lo, hi),
        EdgeAnswer::Stopped { at, outcome, units } => put_stopped(out, by, *at, outcome, *units),
        EdgeAnswer::Refused { at, fault } => put_refused(out, by, *at, *fault),
    }
}

/// Appends two ends, the lower before the upper.
fn put_both(
    out: &mut Vec<u8>,
    head: &str,
    by: By,
    lo: &EdgeEnd,
    hi: &EdgeEnd,
) -> Result<(), AllocError>
    ensures { OnOk result (Adds out.old.items out.new.items (both_text head.now by lo.now hi.now)) }
{
    put_places(out, head, by, lo, hi)?;
    put_kinds(out, lo, hi)?;
    put_gaps(out, lo, hi)?;
    Ok(())
}

/// Appends the places of two ends.
fn put_places(
    out: &mut Vec<u8>,
    head: &str,
    by: By,
    lo: &EdgeEnd,
    hi: &EdgeEnd,
) -> Result<(), AllocError>
    ensures { OnOk result (Adds out.old.items out.new.items (places_text head.now by lo.now hi.now)) }
{
    put_text(out, head)?;
    put_text(out, quantity_of(by))?;
    put_place(out, by, lo.at)?;
    put_text(out, " ")?;
    put_place(out, by, hi.at)?;
    put_text(out, "\n")?;
    Ok(())
}

/// Appends the kinds of two ends.
fn put_kinds(out: &mut Vec<u8>, lo: &EdgeEnd, hi: &EdgeEnd) -> Result<(), AllocError>
    ensures { OnOk result (Adds out.old.items out.new.items (kinds_text lo.now hi.now)) }
{
    put_text(out, "ends ")?;
    put_text(out, kind_of(lo.kind))?;
    put_text(out, " ")?;
    put_text(out, kind_of(hi.kind))?;
    put_text(out, "\n")?;
    Ok(())
}

/// Appends the gaps of two ends.
fn put_gaps(out: &mut Vec<u8>, lo: &EdgeEnd, hi: &EdgeEnd) -> Result<(), AllocError>
    ensures { OnOk result (Adds out.old.items out.new.items (gaps_text lo.now hi.now)) }
{
    put_text(out, "gaps ")?;
    put_number(out, lo.gap)?;
    put_line(out, " ", hi.gap)?;
    Ok(())
}

/// Appends the outcome that ended the search at a place, and the units of work there.
fn put_stopped(
    out: &mut Vec<u8>,
    by: By,
    at: u32,
    outcome: &Outcome,
    units: u32,
) -> Result<(), AllocError>
    ensures { OnOk result (Adds out.old.items out.new.items (stopped_text by at outcome.now units)) }
{
    put_text(out, outcome_of(outcome))?;
    put_text(out, " at=")?;
    put_place(out, by, at)?;
    put_line(out, " units=", units)?;
    Ok(())
}

/// Appends the range that the parameters break at a place.
fn put_refused(out: &mut Vec<u8>, by: By, at: u32, fault: ParamFault) -> Result<(), AllocError>
    ensures { OnOk result (Adds out.old.items out.new.items (refused_text by at fault)) }
{
    put_text(out, "refused case ")?;
    put_range_fault(out, fault)?;
    put_text(out, " at=")?;
    put_place(out, by, at)?;
    put_text(out, "\n")?;
    Ok(())
}

/// Appends a place: a pressure in Pa, or a temperature in K with three places.
fn put_place(out: &mut Vec<u8>, by: By, at: u32) -> Result<(), AllocError>
    ensures { OnOk result (Adds out.old.items out.new.items (place_text by at)) }
{
    match by {
        By::Pressure => put_number(out, at),
        By::Temperature => put_fixed(out, at as i128, 3),
    }
}

/// The quantity that is searched over.
fn quantity_of(by: By) -> &'static str
    ensures { result.now ≡ quantity_text by }
{
    match by {
        By::Pressure => " P ",
        By::Temperature => " T ",
    }
}

/// What the feed is at an end.
fn kind_of(kind: Kind) -> &'static str
    ensures { result.now ≡ kind_text kind }
{
    match kind {
        Kind::Divided => "divided",
        Kind::Liquid => "liquid",
        Kind::Vapour => "vapour",
    }
}
