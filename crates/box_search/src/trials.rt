//! Searches of a bowl with their answers, worked out by hand.

use crate::bowls::Bowl;
use case_types::{Cell, Column};
use energy_surface::Found;

/// A search under the plane that has the same potential, in 2^-40 bit, of every component.
#[derive(Clone, Copy)]
pub struct Trial {
    pub bowl: Bowl,
    pub potential: i64,
    /// The tolerance, in 2^-40 bit.
    pub delta: i128,
    pub budget: u32,
    pub found: Found,
    pub units: u32,
    pub letters: &'static [u8],
}

pub const HALF: u64 = 1 << 39;
/// No cell has slope lows from here on.
pub const NOWHERE: u64 = 1 << 40;

pub const TRIALS: [Trial; 11] = [
    // With one component the energy is a half more. The plane lies above the bottom by the tolerance,
    Trial {
        bowl: Bowl {
            count: 1,
            bottom: HALF,
            widths: 0,
            slack: 0,
            sloped: NOWHERE,
        },
        potential: (1 << 39) + (1 << 20),
        delta: 1 << 20,
        budget: 100,
        found: Found::AllClear { low: -(1 << 20) },
        units: 0,
        letters: b"p",
    },
    // or by 1 more.
    Trial {
        bowl: Bowl {
            count: 1,
            bottom: HALF,
            widths: 0,
            slack: 0,
            sloped: NOWHERE,
        },
        potential: (1 << 39) + (1 << 20),
        delta: (1 << 20) - 1,
        budget: 100,
        found: Found::Refuted {
            column: Column {
                comp: [1 << 20, 0, 0, 0],
                packing: 1 << 39,
                up: 1 << 39,
                cost: 1 << 29,
            },
        },
        units: 1,
        letters: b"",
    },
    // The first cell of one unit that lies less than 4 from the bottom.
    Trial {
        bowl: Bowl {
            count: 1,
            bottom: HALF,
            widths: 0,
            slack: 8,
            sloped: NOWHERE,
        },
        potential: 1 << 39,
        delta: 4,
        budget: 100,
        found: Found::Grain {
            low: -8,
            cell: Cell {
                lo: [0; 3],
                hi: [0; 3],
                ylo: (1 << 39) - 4,
                yhi: (1 << 39) - 3,
            },
        },
        units: 40,
        letters: b"yypypypypypypypypypypypypypypypypypypypypypypypypypypypypypypypypypypypypypyypppp",
    },
    // The fraction and the packing are halved in turn, down to one unit of the fraction.
    Trial {
        bowl: Bowl {
            count: 2,
            bottom: HALF,
            widths: 0,
            slack: 8,
            sloped: NOWHERE,
        },
        potential: 0,
        delta: 4,
        budget: 100,
        found: Found::Grain {
            low: -8,
            cell: Cell {
                lo: [(1 << 19) - 1, 0, 0],
                hi: [1 << 19, 0, 0],
                ylo: (1 << 39) - (1 << 17),
                yhi: 1 << 39,
            },
        },
        units: 43,
        letters: b"yypyp1yp1pyp1pyp1pyp1pyp1pyp1pyp1pyp1pyp1pyp1pyp1pyp1pyp1pyp1pyp1pyp1pyp1pyp1pyp1pypppp",
    },
    // Lows that are loose by the widths are cleared in narrow cells.
    Trial {
        bowl: Bowl {
            count: 2,
            bottom: HALF,
            widths: 1,
            slack: 0,
            sloped: NOWHERE,
        },
        potential: 0,
        delta: 1 << 39,
        budget: 23,
        found: Found::AllClear { low: -(1 << 39) },
        units: 23,
        letters: b"yyy1pp1ppy1pp1yp1ppyp1ppyy1y1pppy1ppp1ppy1pp1pp",
    },
    // With more components some cells hold no composition.
    Trial {
        bowl: Bowl {
            count: 3,
            bottom: HALF,
            widths: 1,
            slack: 0,
            sloped: NOWHERE,
        },
        potential: 0,
        delta: 1 << 39,
        budget: 100,
        found: Found::AllClear { low: -(1 << 39) },
        units: 35,
        letters: b"yyy1pp1ppy1pp12yp1ppyp1pp2yp1ppyp1pmyy12y1pppy1ppp2y1pppy1pmp1ppy1pp1pp",
    },
    Trial {
        bowl: Bowl {
            count: 4,
            bottom: HALF,
            widths: 1,
            slack: 0,
            sloped: NOWHERE,
        },
        potential: 0,
        delta: 1 << 39,
        budget: 100,
        found: Found::AllClear { low: -(1 << 39) },
        units: 55,
        letters: b"yyy1pp1ppy1pp123yp1ppyp1pp3yp1ppyp1pm23yp1ppyp1pm3yp1pmmyy123y1pppy1ppp3y1pppy1pmp23y1pppy1pmp3y1pmpm1ppy1pp1pp",
    },
    // The middle of the fifth cell lies below the plane.
    Trial {
        bowl: Bowl {
            count: 2,
            bottom: 1 << 38,
            widths: 0,
            slack: 0,
            sloped: NOWHERE,
        },
        potential: 1 << 38,
        delta: 1,
        budget: 5,
        found: Found::Refuted {
            column: Column {
                comp: [1 << 18, 3 << 18, 0, 0],
                packing: 1 << 36,
                up: 3 << 36,
                cost: 3 << 26,
            },
        },
        units: 5,
        letters: b"yyy1",
    },
    // No unit is left to keep it,
    Trial {
        bowl: Bowl {
            count: 2,
            bottom: 1 << 38,
            widths: 0,
            slack: 0,
            sloped: NOWHERE,
        },
        potential: 1 << 38,
        delta: 1,
        budget: 4,
        found: Found::Spent { low: -(1 << 38) },
        units: 4,
        letters: b"yyy1ppppp",
    },
    // or to get there.
    Trial {
        bowl: Bowl {
            count: 2,
            bottom: 1 << 38,
            widths: 0,
            slack: 0,
            sloped: NOWHERE,
        },
        potential: 1 << 38,
        delta: 1,
        budget: 3,
        found: Found::Spent { low: -(1 << 38) },
        units: 3,
        letters: b"yyypppp",
    },
    // The least low is that of a cell that was never taken.
    Trial {
        bowl: Bowl {
            count: 3,
            bottom: HALF,
            widths: 1,
            slack: 0,
            sloped: NOWHERE,
        },
        potential: 0,
        delta: 1 << 39,
        budget: 30,
        found: Found::Spent { low: -(1 << 40) },
        units: 30,
        letters: b"yyy1pp1ppy1pp12yp1ppyp1pp2yp1ppyp1pmyy12y1pppy1ppp2y1pppypppp",
    },
];
