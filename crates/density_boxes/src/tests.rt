//! Examples worked by hand.

ghost use Rattle.std.specs.Prelude.{◌≤◌};

use super::*;
use crate::compositions::fraction_ends;
use case_types::{Cell, Phase, SLOTS};
use std::test::Fail;

/// 1 in 2^-40.
const ONE: u64 = 1 << 40;

/// A half in 2^-40.
const HALF: u64 = 1 << 39;

/// A quarter in 2^-40.
const QUARTER: u64 = 1 << 38;

/// The cell of these ends of the free fractions and of the packing.
fn cell_of(lo: [u32; 3], hi: [u32; 3], ylo: u64, yhi: u64) -> Option<Cell> {
    let inside = hi[0] <= 1 << 20 && hi[1] <= 1 << 20 && hi[2] <= 1 << 20 && yhi <= 1 << 40;
    if !inside || lo[0] > hi[0] || lo[1] > hi[1] || lo[2] > hi[2] || ylo >= yhi {
        return None;
    }
    Some(Cell { lo, hi, ylo, yhi })
}

#[test]
fn edges_of_the_lower_halves(rt: HostRuntime) {
    let mut cell = root(2);
    for (step, edge) in [PACKING, PACKING, PACKING, 0, PACKING].iter().enumerate() {
        let named = edge_to_halve(2, &cell);
        assert_eq!(rt; named, *edge, "at {step}");
        assert!(rt; !is_unit(&cell, named));
        cell = halve(&cell, named).0;
    }
    assert_eq!(rt; (cell.hi[0], cell.yhi), (1 << 19, 1 << 36));
}

#[test]
fn edges_by_width(rt: HostRuntime) {
    for (n, hi, yhi, edge) in [
        (1, [9, 9, 9], 1, PACKING),
        (2, [4, 8, 8], 1, 0),
        (3, [4, 8, 8], 1, 1),
        (4, [4, 8, 8], 1, 1),
        (4, [4, 8, 9], 1, 2),
        (2, [4, 0, 0], 1 << 20, PACKING),
        (2, [4, 0, 0], (1 << 20) - 1, 0),
    ] {
        let cell = cell_of([0; 3], hi, 0, yhi);
        assert_eq!(rt;
            cell.map(|cell| edge_to_halve(n, &cell)),
            Some(edge),
            "at {n} {yhi}"
        );
    }
}

#[test]
fn lower_ends_past_one(rt: HostRuntime) {
    for (n, lo, past) in [
        (3, [524288, 524288, 0], false),
        (3, [524288, 524289, 0], true),
        (2, [524288, 524289, 0], false),
        (4, [524288, 524288, 1], true),
    ] {
        let cell = cell_of(lo, [1 << 20; 3], 0, 1);
        assert_eq!(rt; cell.map(|cell| misses(n, &cell)), Some(past), "at {n}");
    }
}

#[test]
fn fractions_in_a_cell(rt: HostRuntime) {
    let whole = 1 << 20;
    for (lo, hi, a, b) in [
        (
            [1, 2, 0],
            [3, 4, 0],
            [1, 2, whole - 7, 0],
            [3, 4, whole - 3, 0],
        ),
        (
            [1 << 18, 1 << 18, 0],
            [3 << 18, 3 << 18, 0],
            [1 << 18, 1 << 18, 0, 0],
            [3 << 18, 3 << 18, 1 << 19, 0],
        ),
    ] {
        let cell = cell_of(lo, hi, 0, 1).expect(&rt, "the ends are in order");
        assert!(rt; !misses(3, &cell));
        let x = cell_box(3, &cell);
        assert_eq!(rt; x.a, a.map(|part: u64| part << 20));
        assert_eq!(rt; x.b, b.map(|part: u64| part << 20));
    }
}

#[test]
fn middles_of_cells(rt: HostRuntime) {
    let whole = [1 << 20, 1 << 20, 0];
    for (lo, hi, yhi, middle) in [
        (
            [0; 3],
            whole,
            1 << 40,
            Some(([1 << 19, 1 << 19, 0, 0], 1 << 39)),
        ),
        ([0; 3], whole, 2, Some(([1 << 19, 1 << 19, 0, 0], 1))),
        ([0; 3], whole, 1, None),
        ([0, 2, 0], whole, 2, None),
        ([3, 1, 0], [4, 6, 0], 2, Some(([3, 3, (1 << 20) - 6, 0], 1))),
    ] {
        let cell = cell_of(lo, hi, 0, yhi);
        assert_eq!(rt;
            cell.map(|cell| midpoint(3, &cell)),
            Some(middle),
            "at {yhi}"
        );
    }
}

/// The ends of the fractions of the phase of `n` components, if one of them has a part and none has 2^104.
fn ends_of_fractions(n: u8, parts: [u128; SLOTS]) -> Option<[(u64, u64); SLOTS]>
    requires { n ≤ 4 }
{
    let limit = 1 << 104;
    if parts[0] >= limit || parts[1] >= limit || parts[2] >= limit || parts[3] >= limit {
        return None;
    }
    let phase = Phase {
        parts,
        packing: 1 << 39,
    };
    let sum = moles(n, &phase);
    if sum == 0 {
        return None;
    }
    Some([
        fraction_ends(n, &phase, sum, 0),
        fraction_ends(n, &phase, sum, 1),
        fraction_ends(n, &phase, sum, 2),
        fraction_ends(n, &phase, sum, 3),
    ])
}

/// Each part over the sum of the live parts, rounded down and rounded up.
#[test]
fn fractions_of_phases(rt: HostRuntime) -> Result<(), Fail> {
    for (n, parts, a, b) in [
        (1, [5, 7, 0, 7], [ONE, 0, 0, 0], [ONE, 0, 0, 0]),
        (2, [1, 1, 0, 0], [HALF, HALF, 0, 0], [HALF, HALF, 0, 0]),
        // a third and two thirds
        (
            2,
            [1, 2, 9, 9],
            [366_503_875_925, 733_007_751_850, 0, 0],
            [366_503_875_926, 733_007_751_851, 0, 0],
        ),
        // all but one part of 2^100 + 1
        (2, [1 << 100, 1, 0, 0], [ONE - 1, 0, 0, 0], [ONE, 1, 0, 0]),
        // no part of a live component
        (
            3,
            [3, 0, 1, 4],
            [3 * QUARTER, 0, QUARTER, 0],
            [3 * QUARTER, 0, QUARTER, 0],
        ),
        // sevenths
        (
            3,
            [1, 2, 4, 0],
            [157_073_089_682, 314_146_179_364, 628_292_358_729, 0],
            [157_073_089_683, 314_146_179_365, 628_292_358_730, 0],
        ),
        // sixths and a half
        (
            4,
            [1, 1, 1, 3],
            [183_251_937_962, 183_251_937_962, 183_251_937_962, HALF],
            [183_251_937_963, 183_251_937_963, 183_251_937_963, HALF],
        ),
        (4, [1 << 103; SLOTS], [QUARTER; SLOTS], [QUARTER; SLOTS]),
    ] {
        assert!(rt; n <= 4);
        let ends = ends_of_fractions(n, parts).ok_or("no box")?;
        assert_eq!(rt; ends.map(|end: (u64, u64)| end.0), a, "lower ends at {n}");
        assert_eq!(rt; ends.map(|end: (u64, u64)| end.1), b, "upper ends at {n}");
    }
    Ok(())
}
