//! What searches for phase boundaries come to, their texts and their statuses: first those of searches of an independent program.

use crate::ends::End;
use crate::reports::report;
use case_types::{Cell, EdgeAnswer, EdgeEnd, Kind, Outcome, ParamFault};
use case_words::By;
use std::test::Fail;

/// An end whose further numbers the text doesn't say.
fn end_at(at: u32, kind: Kind, gap: i128) -> EdgeEnd {
    EdgeEnd {
        at,
        kind,
        gap,
        u: 5,
        packing: 6,
        up: 7,
        low: 8,
    }
}

/// Whether there is a boundary, the quantity, the places, kinds and gaps of two ends, the status and the text.
const ENDS: [(bool, By, [(u32, Kind, i128); 2], u8, &str); 6] = [
    (
        true,
        By::Pressure,
        [
            (6_562_500, Kind::Divided, 137_438_046_233),
            (12_125_000, Kind::Liquid, 137_899_112_903),
        ],
        0,
        "bracket P 6562500 12125000\nends divided liquid\ngaps 137438046233 137899112903\n",
    ),
    (
        true,
        By::Pressure,
        [
            (257_500, Kind::Vapour, 559_878_152_194),
            (319_375, Kind::Divided, 549_683_696_191),
        ],
        0,
        "bracket P 257500 319375\nends vapour divided\ngaps 559878152194 549683696191\n",
    ),
    (
        true,
        By::Temperature,
        [
            (412_500, Kind::Divided, 549_708_200_432),
            (431_250, Kind::Vapour, 545_706_212_532),
        ],
        0,
        "bracket T 412.500 431.250\nends divided vapour\ngaps 549708200432 545706212532\n",
    ),
    (
        false,
        By::Pressure,
        [
            (100_000, Kind::Vapour, 451_793_487),
            (5_000_000, Kind::Liquid, 531_522_009),
        ],
        10,
        "no-edge P 100000 5000000\nends vapour liquid\ngaps 451793487 531522009\n",
    ),
    (
        false,
        By::Temperature,
        [
            (550_000, Kind::Vapour, 122_696_092_646),
            (600_000, Kind::Vapour, 133_908_045_342),
        ],
        10,
        "no-edge T 550.000 600.000\nends vapour vapour\ngaps 122696092646 133908045342\n",
    ),
    (
        false,
        By::Temperature,
        [
            (50_001, Kind::Liquid, -1),
            (1_500_000, Kind::Liquid, 1 - (1 << 80)),
        ],
        10,
        "no-edge T 50.001 1500.000\nends liquid liquid\ngaps -1 -1208925819614629174706175\n",
    ),
];

#[test]
fn prints_two_ends(rt: HostRuntime) -> Result<(), Fail> {
    for (bounded, by, [lower, upper], status, want) in ENDS {
        let lo = end_at(lower.0, lower.1, lower.2);
        let hi = end_at(upper.0, upper.1, upper.2);
        let answer = if bounded {
            EdgeAnswer::Bracket { lo, hi }
        } else {
            EdgeAnswer::NoEdge { lo, hi }
        };
        let end = End::Edge(by, answer);
        assert_eq!(rt; end.status(), status, "{want}");
        let text = report(rt.alloc(), &end)?;
        assert_eq!(rt; text.as_slice(), want.as_bytes());
    }
    Ok(())
}

/// The quantity, the place, the outcome there, its units, and the text.
const STOPPED: [(By, u32, Outcome, u32, &str); 4] = [
    (
        By::Pressure,
        1_000_000,
        Outcome::Spent,
        200_000,
        "open spent at=1000000 units=200000\n",
    ),
    (
        By::Temperature,
        300_000,
        Outcome::Spent,
        2,
        "open spent at=300.000 units=2\n",
    ),
    // No search stops at a flash that closed.
    (
        By::Pressure,
        1_000,
        Outcome::Closed,
        0,
        "closed at=1000 units=0\n",
    ),
    (
        By::Temperature,
        1_499_999,
        Outcome::Spent,
        10_000_000,
        "open spent at=1499.999 units=10000000\n",
    ),
];

#[test]
fn prints_where_it_stopped(rt: HostRuntime) -> Result<(), Fail> {
    for (by, at, outcome, units, want) in STOPPED {
        let end = End::Edge(by, EdgeAnswer::Stopped { at, outcome, units });
        assert_eq!(rt; end.status(), 5, "{want}");
        let text = report(rt.alloc(), &end)?;
        assert_eq!(rt; text.as_slice(), want.as_bytes());
    }
    let grain = EdgeAnswer::Stopped {
        at: 300_500,
        outcome: Outcome::Grain(Cell::default()),
        units: 41,
    };
    let end = End::Edge(By::Temperature, grain);
    assert_eq!(rt; end.status(), 5);
    let text = report(rt.alloc(), &end)?;
    assert_eq!(rt;
        text.as_slice(),
        b"open grain at=300.500 units=41\n".as_slice()
    );
    Ok(())
}

/// The quantity, the place, the range that is broken there, and the text.
const REFUSED: [(By, u32, ParamFault, &str); 5] = [
    (
        By::Temperature,
        50_000,
        ParamFault::ARange(1, 1),
        "refused case ARange 1 1 at=50.000\n",
    ),
    (
        By::Pressure,
        100_000_000,
        ParamFault::BRange,
        "refused case BRange at=100000000\n",
    ),
    (
        By::Pressure,
        1_000,
        ParamFault::BRatio,
        "refused case BRatio at=1000\n",
    ),
    (
        By::Temperature,
        1_200_000,
        ParamFault::MRange(4),
        "refused case MRange 4 at=1200.000\n",
    ),
    (
        By::Temperature,
        75_001,
        ParamFault::ARange(2, 3),
        "refused case ARange 2 3 at=75.001\n",
    ),
];

#[test]
fn prints_where_it_was_refused(rt: HostRuntime) -> Result<(), Fail> {
    for (by, at, fault, want) in REFUSED {
        let end = End::Edge(by, EdgeAnswer::Refused { at, fault });
        assert_eq!(rt; end.status(), 4, "{want}");
        let text = report(rt.alloc(), &end)?;
        assert_eq!(rt; text.as_slice(), want.as_bytes());
    }
    Ok(())
}
