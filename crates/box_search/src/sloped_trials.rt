//! Searches of a bowl that has slope lows with their answers, worked out by hand.

use crate::bowls::Bowl;
use crate::trials::{HALF, Trial};
use case_types::{Cell, Column};
use energy_surface::Found;

pub const SLOPED_TRIALS: [Trial; 9] = [
    // A slope low clears what the plain low doesn't, down to the tolerance,
    Trial {
        bowl: Bowl {
            count: 2,
            bottom: HALF,
            widths: 0,
            slack: 8,
            sloped: 0,
        },
        potential: 4,
        delta: 4,
        budget: 100,
        found: Found::AllClear { low: -4 },
        units: 0,
        letters: b"s",
    },
    // and not what the plain low clears.
    Trial {
        bowl: Bowl {
            count: 2,
            bottom: HALF,
            widths: 0,
            slack: 4,
            sloped: 0,
        },
        potential: 0,
        delta: 4,
        budget: 100,
        found: Found::AllClear { low: -4 },
        units: 0,
        letters: b"p",
    },
    // The plane lies higher by 1.
    Trial {
        bowl: Bowl {
            count: 2,
            bottom: HALF,
            widths: 0,
            slack: 8,
            sloped: 0,
        },
        potential: 5,
        delta: 4,
        budget: 100,
        found: Found::Refuted {
            column: Column {
                comp: [1 << 19, 1 << 19, 0, 0],
                packing: 1 << 39,
                up: 0,
                cost: 0,
            },
        },
        units: 1,
        letters: b"",
    },
    // No unit is left to keep that; the cell in hand stands by its slope low.
    Trial {
        bowl: Bowl {
            count: 2,
            bottom: HALF,
            widths: 0,
            slack: 8,
            sloped: 0,
        },
        potential: 5,
        delta: 4,
        budget: 0,
        found: Found::Spent { low: -5 },
        units: 0,
        letters: b"s",
    },
    // As above down to one unit of the fraction, and the upper half of the packings has slope lows.
    Trial {
        bowl: Bowl {
            count: 2,
            bottom: HALF,
            widths: 0,
            slack: 8,
            sloped: HALF,
        },
        potential: 0,
        delta: 4,
        budget: 100,
        found: Found::Grain {
            low: -8,
            cell: Cell {
                lo: [(1 << 19) - 1, 0, 0],
                hi: [1 << 19, 0, 0],
                ylo: (1 << 39) - (1 << 17),
                yhi: 1 << 39,
            },
        },
        units: 43,
        letters: b"yypyp1yp1pyp1pyp1pyp1pyp1pyp1pyp1pyp1pyp1pyp1pyp1pyp1pyp1pyp1pyp1pyp1pyp1pyp1pyp1pyppps",
    },
    // No unit is left to get there.
    Trial {
        bowl: Bowl {
            count: 2,
            bottom: HALF,
            widths: 0,
            slack: 8,
            sloped: HALF,
        },
        potential: 0,
        delta: 4,
        budget: 5,
        found: Found::Spent { low: -8 },
        units: 5,
        letters: b"yypyp1yppps",
    },
    // Cells above three quarters of the densest packing stand by their slope lows, where the plain ones don't clear them.
    Trial {
        bowl: Bowl {
            count: 2,
            bottom: HALF,
            widths: 1,
            slack: 0,
            sloped: 3 << 38,
        },
        potential: 0,
        delta: 1 << 39,
        budget: 100,
        found: Found::AllClear { low: -(1 << 39) },
        units: 20,
        letters: b"yyy1pp1ppy1pp1yp1ppyp1ppyy1y1pppy1ppp1pps",
    },
    // Of two cells that are left with slope lows the one far from the bottom stands by its plain low, which is higher.
    Trial {
        bowl: Bowl {
            count: 2,
            bottom: 1 << 38,
            widths: 0,
            slack: 9,
            sloped: 1 << 38,
        },
        potential: 0,
        delta: 4,
        budget: 12,
        found: Found::Spent { low: -9 },
        units: 12,
        letters: b"yyyp1yp1yp1pyp1pyp1ppppsp",
    },
    // With three components some cells with slope lows hold no composition.
    Trial {
        bowl: Bowl {
            count: 3,
            bottom: HALF,
            widths: 1,
            slack: 0,
            sloped: HALF,
        },
        potential: 0,
        delta: 1 << 39,
        budget: 100,
        found: Found::AllClear { low: -(1 << 39) },
        units: 18,
        letters: b"yyy1pp1ppy1pp12yp1ppyp1pp2yp1ppyp1pms",
    },
];
