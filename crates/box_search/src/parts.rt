//! Parts of bounds: what a cell that is still to be looked at has from the cell that it is a half of.

ghost use Rattle.std.specs.Prelude.{◌≡◌, ◌<◌, ◌^◌, length, unsigned_abs};

use case_types::{Cell, MixLow, MixSlope, MixUp, PackingLogs, PackingSlope, SLOTS};

/// What lower bounds over a cell have of its compositions.
#[derive(Clone, Copy)]
pub struct BoxParts {
    pub mix: MixLow,
    /// The plane over the box, at most, in 2^-40 bit.
    pub plane: i128,
    pub ghost small: { unsigned_abs plane < 2 ^ 80 },
}

/// A grid point with the parts of upper bounds there.
#[derive(Clone, Copy)]
pub struct PointParts {
    /// The fractions in 2^-20.
    pub comp: [u32; SLOTS],
    pub mix: MixUp,
    /// The logarithms at its packing fraction.
    pub logs: PackingLogs,
    pub ghost entries: { length comp ≡ 4 },
}

/// The logarithms at the packing fraction in the middle of a cell, and the parts of its slope low that were made.
#[derive(Clone, Copy)]
pub struct Slopes {
    pub middle: PackingLogs,
    /// What the packing fractions have of it.
    pub packing: Option<PackingSlope>,
    /// What the compositions have of it.
    pub mix: Option<MixSlope>,
}

/// The parts of a cell that no low clears.
#[derive(Clone, Copy)]
pub struct Made {
    pub over: BoxParts,
    pub slopes: Slopes,
}

/// What both halves of a cell have from it, but for the ends of the packing fraction.
#[derive(Clone, Copy)]
pub enum Shared {
    /// After a halving of the packing fraction: the parts of the compositions, of the one in the middle and of slope lows if
    /// they were made.
    Compositions {
        over: BoxParts,
        middle: Option<MixUp>,
        slope: Option<MixSlope>,
    },
    /// After a halving of a fraction: the logarithms at the packing fraction in the middle, and the part of slope lows if it
    /// was made.
    Packings {
        middle: PackingLogs,
        slope: Option<PackingSlope>,
    },
    /// Of the whole domain: nothing.
    Nothing,
}

/// A cell that is still to be looked at, with the logarithms at the ends of its packing fraction.
#[derive(Clone, Copy)]
pub struct Half {
    pub cell: Cell,
    pub from: PackingLogs,
    pub to: PackingLogs,
    pub shared: Shared,
}

impl Default for Half {
    /// A cell without parts.
    fn default() -> Half {
        Half {
            cell: Cell::default(),
            from: PackingLogs::default(),
            to: PackingLogs::default(),
            shared: Shared::Nothing,
        }
    }
}
