//! What a flash that closes says beside a walk over the states of one phase.

ghost use Rattle.std.specs.Prelude.{◌≡◌, ◌≤◌, ◌<◌, ◌*◌, ◌^◌, pos, ◌-ℤ◌, ◌≤ℤ◌, int_le, unsigned_abs};
ghost use Rattle.case_types.specs.Grid.Cells.{region_of};
ghost use Rattle.fibre_bound.specs.Laws.{GrainIsInside};
ghost use Rattle.edge_flash.specs.Ends.{kind_of, gap_of, HasNumbers, grain_region, TellsBeside};
ghost use Rattle.edge_flash.specs.Phases.{phase_kind};
ghost use Rattle.edge_flash.specs.Places.{StandsAt};

use crate::classed::Classed;
use crate::fibres::Walked;
use case_types::{Answer, Cell, EdgeEnd, Kind, Outcome};
use fibre_bound::FibreEnd;

/// Ten thousand times the packing fraction, in 2^-40, from which on one phase is called liquid.
const LIQUID: u64 = 2531 << 40;

/// At least so far above the split lies every state of one phase where the feed is divided: 2^-20 bit, in 2^-40.
const APART: i128 = 1 << 20;

/// What is said of a place: an end where the walk is clear, and else the walk's outcome.
pub fn beside(at: u32, answer: &Answer, walked: &Walked) -> Classed
    requires u_small { unsigned_abs answer.now.u ≤ 2 ^ 51 }
    requires gap_low { pos 0 ≤ℤ answer.now.gap }
    requires gap_high { answer.now.gap ≤ℤ pos (2 ^ 40) }
    requires grain { GrainIsInside walked.now.fibre.end }
    ensures tells { TellsBeside answer.now walked.now.fibre walked.now.units result }
    ensures stands { StandsAt at result }
{
    let units = walked.units;
    match walked.fibre.end {
        FibreEnd::Clear => Classed::End(end_from(at, answer, walked)),
        FibreEnd::Spent => Classed::Open {
            outcome: Outcome::Spent,
            units,
        },
        FibreEnd::Grain(packing) => Classed::Open {
            outcome: Outcome::Grain(grain_cell(packing)),
            units,
        },
    }
}

/// What the feed is at a place where the flash closes and the walk is clear.
fn end_from(at: u32, answer: &Answer, walked: &Walked) -> EdgeEnd
    requires u_small { unsigned_abs answer.now.u ≤ 2 ^ 51 }
    requires gap_low { pos 0 ≤ℤ answer.now.gap }
    requires gap_high { answer.now.gap ≤ℤ pos (2 ^ 40) }
    ensures numbers { HasNumbers answer.now walked.now.fibre result }
    ensures at { result.at ≡ at }
{
    EdgeEnd {
        at,
        kind: kind(answer, walked),
        gap: gap_at(answer, walked),
        u: answer.u,
        packing: walked.fibre.packing,
        up: walked.fibre.up,
        low: walked.fibre.low,
    }
}

/// What the feed is.
fn kind(answer: &Answer, walked: &Walked) -> Kind
    requires u_small { unsigned_abs answer.now.u ≤ 2 ^ 51 }
    ensures { result ≡ kind_of answer.now.u walked.now.fibre }
{
    if is_apart(answer, walked) {
        Kind::Divided
    } else {
        called(walked.fibre.packing)
    }
}

/// Whether every state of one phase lies at least 2^-20 bit above the split.
fn is_apart(answer: &Answer, walked: &Walked) -> bool
    requires u_small { unsigned_abs answer.now.u ≤ 2 ^ 51 }
    ensures { result ≡ int_le (pos (2 ^ 20)) (walked.now.fibre.low -ℤ answer.now.u) }
{
    walked.fibre.low - answer.u >= APART
}

/// What one phase is called at a packing fraction in 2^-40.
fn called(packing: u64) -> Kind
    requires { packing < 2 ^ 40 }
    ensures { result ≡ phase_kind packing }
{
    if 10_000 * packing >= LIQUID {
        Kind::Liquid
    } else {
        Kind::Vapour
    }
}

/// The gap of the split where the feed is divided, and of one phase elsewhere.
fn gap_at(answer: &Answer, walked: &Walked) -> i128
    requires u_small { unsigned_abs answer.now.u ≤ 2 ^ 51 }
    requires gap_low { pos 0 ≤ℤ answer.now.gap }
    requires gap_high { answer.now.gap ≤ℤ pos (2 ^ 40) }
    ensures { result ≡ gap_of answer.now.u answer.now.gap walked.now.fibre }
{
    if is_apart(answer, walked) {
        answer.gap
    } else {
        whole_gap(answer, walked)
    }
}

/// The energy of one phase, less that which no division of the feed is below.
fn whole_gap(answer: &Answer, walked: &Walked) -> i128
    requires u_small { unsigned_abs answer.now.u ≤ 2 ^ 51 }
    requires gap_low { pos 0 ≤ℤ answer.now.gap }
    requires gap_high { answer.now.gap ≤ℤ pos (2 ^ 40) }
    ensures { result ≡ walked.now.fibre.up -ℤ (answer.now.u -ℤ answer.now.gap) }
{
    walked.fibre.up - (answer.u - answer.gap)
}

/// A cell of one unit of packing fractions, with no fractions of components.
fn grain_cell(packing: u64) -> Cell
    requires { packing < 2 ^ 40 }
    ensures { region_of result ≡ grain_region packing }
{
    Cell {
        lo: [0; 3],
        hi: [0; 3],
        ylo: packing,
        yhi: packing + 1,
    }
}
