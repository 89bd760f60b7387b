//! Packings against numbers that an independent program computed.

ghost use Rattle.std.specs.Prelude.{◌≤◌};

use super::*;
use case_types::{BoxX, Case, Phase, SLOTS};
use density_boxes::{cell_box, misses, moles, phase_box, root};
use pr_params::params;
use sample_cases::{ethane_to_benzene, like_components, methane_to_nitrogen};
use std::test::Fail;

/// Where the components come from.
#[derive(Clone, Copy)]
enum Mixture {
    LikeComponents,
    MethaneToNitrogen,
    EthaneToBenzene,
}

/// The composition of a phase, or all compositions.
#[derive(Clone, Copy)]
enum Compositions {
    OfParts([u128; SLOTS]),
    All,
}

use Compositions::{All, OfParts};
use Mixture::{EthaneToBenzene, LikeComponents, MethaneToNitrogen};

/// The components and how many, the temperature in mK and the pressure in Pa, the compositions, and the packing fractions in
/// 2^-40.
type Sample = (Mixture, u8, u32, u32, Compositions, (u64, Option<u64>));

/// At and above critical points, and where a gas and a liquid have each a root: below the bend first, and above it first.
const SAMPLES: [Sample; 12] = [
    (
        LikeComponents,
        1,
        300_000,
        1_000_000,
        OfParts([1, 0, 0, 0]),
        (266_171_709_390, None),
    ),
    (
        LikeComponents,
        4,
        300_000,
        1_000_000,
        OfParts([1, 2, 4, 8]),
        (266_171_709_373, None),
    ),
    (
        LikeComponents,
        1,
        250_000,
        341_000,
        OfParts([1, 0, 0, 0]),
        (46_708_014_026, Some(661_479_859_506)),
    ),
    (
        LikeComponents,
        1,
        250_000,
        250_000,
        All,
        (30_985_207_593, Some(656_742_074_234)),
    ),
    (
        MethaneToNitrogen,
        2,
        300_000,
        5_000_000,
        OfParts([97, 3, 0, 0]),
        (68_578_552_595, None),
    ),
    (
        MethaneToNitrogen,
        2,
        200_000,
        1_000_000,
        OfParts([1, 1, 0, 0]),
        (39_020_180_124, Some(816_321_320_661)),
    ),
    (
        MethaneToNitrogen,
        3,
        300_000,
        5_000_000,
        All,
        (889_287_084_260, None),
    ),
    (
        MethaneToNitrogen,
        4,
        300_000,
        5_000_000,
        OfParts([97, 3, 20, 41]),
        (173_317_622_091, None),
    ),
    (
        EthaneToBenzene,
        2,
        280_000,
        1_000_000,
        OfParts([1, 3, 0, 0]),
        (47_640_755_340, Some(822_135_852_000)),
    ),
    (
        EthaneToBenzene,
        4,
        250_000,
        1000,
        OfParts([97, 3, 20, 41]),
        (25_396_278, Some(842_163_544_124)),
    ),
    (
        EthaneToBenzene,
        4,
        350_000,
        4_000_000,
        All,
        (465_591_354_392, None),
    ),
    (
        EthaneToBenzene,
        2,
        350_000,
        100_000_000,
        OfParts([1, 3, 0, 0]),
        (907_079_801_191, None),
    ),
];

/// Some components at a temperature and a pressure; none out of their ranges.
fn case_of(mixture: Mixture, n: u8, t: u32, p: u32) -> Option<Case> {
    if n < 1 || n > 4 || t < 50_000 || t > 1_500_000 || p < 1000 || p > 100_000_000 {
        return None;
    }
    let mut case = match mixture {
        LikeComponents => like_components(n),
        MethaneToNitrogen => methane_to_nitrogen(n),
        EthaneToBenzene => ethane_to_benzene(n),
    };
    case.t = t;
    case.p = p;
    Some(case)
}

/// The box of some compositions; none where there are no parts, or too many.
fn box_of(case: &Case, compositions: Compositions) -> Option<BoxX> {
    match compositions {
        OfParts(parts) => box_of_parts(case, parts),
        All => box_of_all(case),
    }
}

fn box_of_parts(case: &Case, parts: [u128; SLOTS]) -> Option<BoxX> {
    let limit = 1 << 104;
    if parts[0] >= limit || parts[1] >= limit || parts[2] >= limit || parts[3] >= limit {
        return None;
    }
    let phase = Phase {
        parts,
        packing: 1 << 39,
    };
    if moles(case.n, &phase) == 0 {
        return None;
    }
    Some(phase_box(case, &phase))
}

fn box_of_all(case: &Case) -> Option<BoxX> {
    let cell = root(case.n);
    if misses(case.n, &cell) {
        return None;
    }
    Some(cell_box(case.n, &cell))
}

#[test]
fn packings_of_samples(rt: HostRuntime) -> Result<(), Fail> {
    for (mixture, n, t, p, compositions, (first, second)) in SAMPLES {
        let case = case_of(mixture, n, t, p).ok_or("no case")?;
        let params = params(&case).ok().ok_or("no parameters")?;
        let x = box_of(&case, compositions).ok_or("no box")?;
        let places = packings(&params, &x);
        assert_eq!(rt; places.get(0).copied(), Some(first), "of {n} at {t}");
        assert_eq!(rt; places.get(1).copied(), second, "of {n} at {t}");
        assert_eq!(rt; places.get(2), None, "of {n} at {t}");
    }
    Ok(())
}
