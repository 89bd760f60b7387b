//! Searches over lists of kinds, worked by hand.

use super::*;
use crate::listed::Listed;
use case_types::{EdgeAnswer, EdgeEnd, Kind, Outcome};
use case_words::Side;
use std::alloc::{AllocError, Global};
use std::test::Fail;

/// An end of this kind, without energies.
fn end_of((at, kind): (u32, Kind)) -> EdgeEnd {
    EdgeEnd {
        at,
        kind,
        gap: 0,
        u: 0,
        packing: 0,
        up: 0,
        low: 0,
    }
}

/// A search over a list of kinds by place.
struct Row {
    side: Side,
    range: (u32, u32),
    width: u32,
    kinds: &'static [(u32, Kind)],
    /// The places that it asks.
    asked: &'static [u32],
    found: Found,
}

/// What a search comes to, by places and kinds.
enum Found {
    Bracket((u32, Kind), (u32, Kind)),
    NoEdge((u32, Kind), (u32, Kind)),
    Stopped(u32),
}

/// The answer that it stands for.
fn answer_of(found: &Found) -> EdgeAnswer {
    match found {
        Found::Bracket(lo, hi) => EdgeAnswer::Bracket {
            lo: end_of(*lo),
            hi: end_of(*hi),
        },
        Found::NoEdge(lo, hi) => EdgeAnswer::NoEdge {
            lo: end_of(*lo),
            hi: end_of(*hi),
        },
        Found::Stopped(at) => EdgeAnswer::Stopped {
            at: *at,
            outcome: Outcome::Spent,
            units: 0,
        },
    }
}

const ROWS: [Row; 8] = [
    Row {
        side: Side::Dew,
        range: (10, 21),
        width: 3,
        kinds: &[
            (10, Kind::Divided),
            (21, Kind::Vapour),
            (15, Kind::Divided),
            (18, Kind::Divided),
        ],
        asked: &[10, 21, 15, 18],
        found: Found::Bracket((18, Kind::Divided), (21, Kind::Vapour)),
    },
    // A whole end of the other kind may take the place of the given one.
    Row {
        side: Side::Bubble,
        range: (10, 21),
        width: 5,
        kinds: &[(10, Kind::Divided), (21, Kind::Liquid), (15, Kind::Vapour)],
        asked: &[10, 21, 15],
        found: Found::Bracket((10, Kind::Divided), (15, Kind::Vapour)),
    },
    // Middles are rounded down, and the first of two ends at a place is taken.
    Row {
        side: Side::Dew,
        range: (10, 21),
        width: 1,
        kinds: &[
            (10, Kind::Vapour),
            (21, Kind::Divided),
            (15, Kind::Divided),
            (12, Kind::Vapour),
            (12, Kind::Divided),
            (13, Kind::Divided),
        ],
        asked: &[10, 21, 15, 12, 13],
        found: Found::Bracket((12, Kind::Vapour), (13, Kind::Divided)),
    },
    Row {
        side: Side::Bubble,
        range: (10, 21),
        width: 3,
        kinds: &[(10, Kind::Liquid), (21, Kind::Vapour)],
        asked: &[10, 21],
        found: Found::NoEdge((10, Kind::Liquid), (21, Kind::Vapour)),
    },
    // The whole end is that of the other side.
    Row {
        side: Side::Dew,
        range: (10, 21),
        width: 3,
        kinds: &[(10, Kind::Liquid), (21, Kind::Divided)],
        asked: &[10, 21],
        found: Found::NoEdge((10, Kind::Liquid), (21, Kind::Divided)),
    },
    Row {
        side: Side::Bubble,
        range: (10, 21),
        width: 3,
        kinds: &[(10, Kind::Divided), (21, Kind::Divided)],
        asked: &[10, 21],
        found: Found::NoEdge((10, Kind::Divided), (21, Kind::Divided)),
    },
    Row {
        side: Side::Bubble,
        range: (10, 21),
        width: 3,
        kinds: &[(10, Kind::Liquid)],
        asked: &[10, 21],
        found: Found::Stopped(21),
    },
    Row {
        side: Side::Bubble,
        range: (10, 21),
        width: 3,
        kinds: &[(10, Kind::Liquid), (21, Kind::Divided)],
        asked: &[10, 21, 15],
        found: Found::Stopped(15),
    },
];

/// The ends of a list of kinds.
fn ends_of(alloc: Global, kinds: &[(u32, Kind)]) -> Result<Vec<EdgeEnd>, AllocError> {
    kinds.iter().map(|kind| end_of(*kind)).collect(alloc)
}

#[test]
fn searches_lists(rt: HostRuntime) -> Result<(), Fail> {
    for row in &ROWS {
        let (lo, hi) = row.range;
        assert!(rt; lo < hi);
        assert!(rt; row.width >= 1);
        let ends = ends_of(rt.alloc(), row.kinds)?;
        let mut places = Listed {
            ends: ends.as_slice(),
            asked: Vec::new(rt.alloc()),
        };
        let answer = bisect(&mut places, row.side, lo, hi, row.width)?;
        assert_eq!(rt; places.asked.as_slice(), row.asked, "from {lo} to {hi}");
        assert_eq!(rt; answer, answer_of(&row.found), "from {lo} to {hi}");
    }
    Ok(())
}
