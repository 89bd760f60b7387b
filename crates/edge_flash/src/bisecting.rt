//! The search for a phase boundary between two places.

ghost use Rattle.std.specs.Prelude.{ℕ, ◌≡◌, ◌≤◌, ◌<◌, ◌+◌, ◌/◌, ◌↔◌, if◌then◌else◌, IfOk, IfErr};
ghost use Rattle.edge_flash.specs.declared.classed.Classed.{Classed as Said};
ghost use Rattle.edge_flash.specs.Halts.{Halted, HaltsAt};
ghost use Rattle.edge_flash.specs.Places.{is_divided, is_wanted, is_pair, are_alike, boundary, IsEndOf, Bisected, EnclosesIfBracket};

use crate::classed::Classed;
use crate::halts::Halt;
use crate::places::Classify;
use case_types::{EdgeAnswer, EdgeEnd, Kind, Memory};
use case_words::Side;

/// Looks for a boundary between two places, beside which the feed is liquid (a bubble point) or vapour (a dew point).
///
/// The lower place is asked first, then the upper one. Where one of them isn't divided and the other of the wanted kind, there is no
/// edge. While they differ by more than the width, the middle is asked, rounded down: it takes the place of the end that is divided
/// where it is divided, and else of the whole one. The search stops at the first place where the answer is open, and is refused
/// at the first one whose parameters break a range.
pub fn bisect<C: Classify>(
    places: &mut C,
    side: Side,
    lo: u32,
    hi: u32,
    width: u32,
) -> Result<EdgeAnswer, Memory>
    requires ordered { lo < hi }
    requires some_width { 1 ≤ width }
    requires low { C.least places.old ≤ lo }
    requires high { hi ≤ C.greatest places.old }
    ensures bisected { IfOk result (Bisected (C.may_say places.old) (boundary side lo hi width)) }
    ensures encloses { IfOk result (EnclosesIfBracket (boundary side lo hi width)) }
    ensures least { C.least places.new ≡ C.least places.old }
    ensures greatest { C.greatest places.new ≡ C.greatest places.old }
    ensures kept { (place : ℕ) (said : Said) → C.may_say places.new place said ↔ C.may_say places.old place said }
{
    match searched(places, side, lo, hi, width) {
        Ok(answer) => Ok(answer),
        Err(Halt::Answer(answer)) => Ok(answer),
        Err(Halt::Memory(fault)) => Err(fault),
    }
}

/// The same search, whose answer at the place that ends it early comes as a halt.
fn searched<C: Classify>(
    places: &mut C,
    side: Side,
    lo: u32,
    hi: u32,
    width: u32,
) -> Result<EdgeAnswer, Halt>
    requires ordered { lo < hi }
    requires some_width { 1 ≤ width }
    requires low { C.least places.old ≤ lo }
    requires high { hi ≤ C.greatest places.old }
    ensures bisected { IfOk result (Bisected (C.may_say places.old) (boundary side lo hi width)) }
    ensures encloses { IfOk result (EnclosesIfBracket (boundary side lo hi width)) }
    ensures halted { IfErr result (Halted (C.may_say places.old) (boundary side lo hi width)) }
    ensures least { C.least places.new ≡ C.least places.old }
    ensures greatest { C.greatest places.new ≡ C.greatest places.old }
    ensures kept { (place : ℕ) (said : Said) → C.may_say places.new place said ↔ C.may_say places.old place said }
{
    let mut lower = end_at(places, lo)?;
    let mut upper = end_at(places, hi)?;
    if !has_boundary(side, lower.kind, upper.kind) {
        return Ok(EdgeAnswer::NoEdge {
            lo: lower,
            hi: upper,
        });
    }
    while upper.at - lower.at > width {
        let end = end_at(places, halved(lower.at, upper.at))?;
        (lower, upper) = narrowed(lower, upper, end);
    }
    Ok(EdgeAnswer::Bracket {
        lo: lower,
        hi: upper,
    })
}

/// What the feed is at a place, or the halt there.
fn end_at<C: Classify>(places: &mut C, at: u32) -> Result<EdgeEnd, Halt>
    requires low { C.least places.old ≤ at }
    requires high { at ≤ C.greatest places.old }
    ensures end { IfOk result (IsEndOf (C.may_say places.old) at) }
    ensures halted { IfErr result (HaltsAt (C.may_say places.old) at) }
    ensures least { C.least places.new ≡ C.least places.old }
    ensures greatest { C.greatest places.new ≡ C.greatest places.old }
    ensures kept { (place : ℕ) (said : Said) → C.may_say places.new place said ↔ C.may_say places.old place said }
{
    match places.classify(at) {
        Ok(Classed::End(end)) => Ok(end),
        Ok(Classed::Open { outcome, units }) => {
            Err(Halt::Answer(EdgeAnswer::Stopped { at, outcome, units }))
        }
        Ok(Classed::Param(fault)) => Err(Halt::Answer(EdgeAnswer::Refused { at, fault })),
        Err(fault) => Err(Halt::Memory(fault)),
    }
}

/// The ends in hand after the middle's: it takes the place of the one that is divided as it is.
fn narrowed(lower: EdgeEnd, upper: EdgeEnd, end: EdgeEnd) -> (EdgeEnd, EdgeEnd)
    ensures lower { result.0 ≡ (if are_alike lower.kind end.kind then end else lower) }
    ensures upper { result.1 ≡ (if are_alike lower.kind end.kind then upper else end) }
{
    if are_same(lower.kind, end.kind) {
        (end, upper)
    } else {
        (lower, end)
    }
}

/// The middle of two places, rounded down.
fn halved(lo: u32, hi: u32) -> u32
    requires { lo ≤ hi }
    ensures { result ≡ (lo + hi) / 2 }
{
    lo + (hi - lo) / 2
}

/// Whether one of two kinds is divided and the other is the wanted one.
fn has_boundary(side: Side, a: Kind, b: Kind) -> bool
    ensures { result ≡ is_pair side a b }
{
    is_split(a) && is_sought(side, b) || is_sought(side, a) && is_split(b)
}

/// Whether both are divided, or both are whole.
fn are_same(a: Kind, b: Kind) -> bool
    ensures { result ≡ are_alike a b }
{
    is_split(a) == is_split(b)
}

/// Whether the feed is divided.
fn is_split(kind: Kind) -> bool
    ensures { result ≡ is_divided kind }
{
    match kind {
        Kind::Divided => true,
        Kind::Liquid | Kind::Vapour => false,
    }
}

/// Whether the kind is the whole one beside the boundary.
fn is_sought(side: Side, kind: Kind) -> bool
    ensures { result ≡ is_wanted side kind }
{
    match side {
        Side::Bubble => kind == Kind::Liquid,
        Side::Dew => kind == Kind::Vapour,
    }
}
