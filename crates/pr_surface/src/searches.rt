//! Searches among like components against what an independent program found and wrote.

use crate::searching::search;
use case_types::{Cell, Column, Letters, SLOTS, Units};
use energy_surface::Found;
use pr_params::params;
use sample_cases::{like_components, plane_of};
use std::test::Fail;

/// A search under one plane.
#[derive(Clone, Copy)]
struct Trial {
    n: u8,
    /// The plane, in 2^-40 bit.
    potentials: [i128; SLOTS],
    /// The tolerance, in 2^-40 bit.
    delta: i128,
    budget: u32,
    found: Found,
    units: u32,
    /// How many letters are written.
    count: usize,
    /// All of them, or the first 70.
    letters: &'static [u8],
}

/// Under the tangent plane of equal parts with fewer units than it takes and just as many, where slopes clear some cells; under planes that the first middle
/// or a later one refutes; under one that a cell of one unit stands against; and under one far below all energies.
const TRIALS: [Trial; 15] = [
    Trial {
        n: 2,
        potentials: [-214_637_903_296, -214_637_903_296, 0, 0],
        delta: 549_755_813_888,
        budget: 0,
        found: Found::Spent {
            low: -7_181_727_806_090,
        },
        units: 0,
        count: 1,
        letters: b"p",
    },
    Trial {
        n: 2,
        potentials: [-214_637_903_296, -214_637_903_296, 0, 0],
        delta: 549_755_813_888,
        budget: 1,
        found: Found::Spent {
            low: -4_745_952_511_948,
        },
        units: 1,
        count: 3,
        letters: b"ypp",
    },
    Trial {
        n: 2,
        potentials: [-214_637_903_296, -214_637_903_296, 0, 0],
        delta: 549_755_813_888,
        budget: 20,
        found: Found::Spent {
            low: -4_470_470_158_451,
        },
        units: 20,
        count: 41,
        letters: b"yyy1yp1ppyp1pp1y1ps1psy1sp1spy1y1ps1psppp",
    },
    Trial {
        n: 2,
        potentials: [-214_637_903_296, -214_637_903_296, 0, 0],
        delta: 549_755_813_888,
        budget: 48,
        found: Found::Spent {
            low: -1_489_531_654_496,
        },
        units: 48,
        count: 97,
        letters: b"yyy1yp1ppyp1pp1y1ps1psy1sp1spy1y1ps1psy1sp1sp1y1pp1ppy1pp1ppyy1y1pp1pp",
    },
    Trial {
        n: 2,
        potentials: [-214_637_903_296, -214_637_903_296, 0, 0],
        delta: 549_755_813_888,
        budget: 49,
        found: Found::AllClear {
            low: -547_075_775_243,
        },
        units: 49,
        count: 99,
        letters: b"yyy1yp1ppyp1pp1y1ps1psy1sp1spy1y1ps1psy1sp1sp1y1pp1ppy1pp1ppyy1y1pp1pp",
    },
    Trial {
        n: 2,
        potentials: [600_000_000_000, 600_000_000_000, 0, 0],
        delta: 549_755_813_888,
        budget: 3,
        found: Found::Refuted {
            column: Column {
                comp: [524_288, 524_288, 0, 0],
                packing: 549_755_813_888,
                up: -176_324_339_368,
                cost: -172_191_737,
            },
        },
        units: 1,
        count: 0,
        letters: b"",
    },
    Trial {
        n: 2,
        potentials: [1_000_000_000_000, -214_637_903_296, 0, 0],
        delta: 1_024,
        budget: 0,
        found: Found::Spent {
            low: -8_396_365_709_386,
        },
        units: 0,
        count: 1,
        letters: b"p",
    },
    Trial {
        n: 3,
        potentials: [-857_810_974_652, -857_810_974_652, -857_810_974_652, 0],
        delta: 549_755_813_888,
        budget: 50,
        found: Found::Spent {
            low: -5_413_557_107_660,
        },
        units: 50,
        count: 101,
        letters: b"yyy12y12pp2pp12pypp2yppyp1ppyp12ppp2yp12pppp12y12yppy1pp1pp2y1pp1ppy1p",
    },
    Trial {
        n: 3,
        potentials: [-857_810_974_652, -857_810_974_652, -857_810_974_652, 0],
        delta: 549_755_813_888,
        budget: 1_000,
        found: Found::AllClear {
            low: -548_763_834_235,
        },
        units: 217,
        count: 435,
        letters: b"yyy12y12pp2pp12pypp2yppyp1ppyp12ppp2yp12pppp12y12yppy1pp1pp2y1pp1ppy1p",
    },
    Trial {
        n: 3,
        potentials: [200_000_000_000, -857_810_974_652, -857_810_974_652, 0],
        delta: 1_048_576,
        budget: 1_000,
        found: Found::Grain {
            low: -6_471_368_082_312,
            cell: Cell {
                lo: [382_319, 196_607, 0],
                hi: [382_320, 196_608, 0],
                ylo: 68_719_345_664,
                yhi: 68_719_476_736,
            },
        },
        units: 90,
        count: 181,
        letters: b"yyy12y12yp1p2pyppyp1p2yp1p2ppyp1p2yppp2yp12yp1ppyp12pyp1p2pyp1p2pypp2y",
    },
    Trial {
        n: 3,
        potentials: [
            -5_000_000_000_000,
            -5_000_000_000_000,
            -5_000_000_000_000,
            0,
        ],
        delta: 1,
        budget: 10,
        found: Found::AllClear {
            low: 275_703_055_596,
        },
        units: 6,
        count: 13,
        letters: b"yyyppyppyyppp",
    },
    Trial {
        n: 4,
        potentials: [
            -1_314_149_531_072,
            -1_314_149_531_072,
            -1_314_149_531_072,
            -1_314_149_531_072,
        ],
        delta: 549_755_813_888,
        budget: 50,
        found: Found::Spent {
            low: -6_543_478_571_805,
        },
        units: 50,
        count: 101,
        letters: b"yyy123y123pypp3yppp23ypppp123y1pp1p2ppy1p2pp12pp2pp3y1p2pp12pp2ppyp1pp",
    },
    Trial {
        n: 4,
        potentials: [
            -1_314_149_531_072,
            -1_314_149_531_072,
            -1_314_149_531_072,
            -1_314_149_531_072,
        ],
        delta: 549_755_813_888,
        budget: 853,
        found: Found::AllClear {
            low: -549_558_261_536,
        },
        units: 853,
        count: 1_707,
        letters: b"yyy123y123pypp3yppp23ypppp123y1pp1p2ppy1p2pp12pp2pp3y1p2pp12pp2ppyp1pp",
    },
    Trial {
        n: 4,
        potentials: [
            -600_000_000_000,
            -1_314_149_531_072,
            -1_314_149_531_072,
            -1_314_149_531_072,
        ],
        delta: 1_048_576,
        budget: 373,
        found: Found::Spent {
            low: -7_257_628_102_877,
        },
        units: 373,
        count: 747,
        letters: b"yyy123y123yp12p3pp23pypp3yppyp1p2p3ppyp123pp3pp23yp1ppyp1pp3yp12pp2ppy",
    },
    Trial {
        n: 4,
        potentials: [
            -600_000_000_000,
            -1_314_149_531_072,
            -1_314_149_531_072,
            -1_314_149_531_072,
        ],
        delta: 1_048_576,
        budget: 374,
        found: Found::Refuted {
            column: Column {
                comp: [262_144, 262_144, 262_144, 262_144],
                packing: 103_079_215_104,
                up: -1_233_697_709_174,
                cost: -1_204_782_919,
            },
        },
        units: 374,
        count: 740,
        letters: b"yyy123y123yp12p3pp23pypp3yppyp1p2p3ppyp123pp3pp23yp1ppyp1pp3yp12pp2ppy",
    },
];

#[test]
fn searches_of_mixtures(rt: HostRuntime) -> Result<(), Fail> {
    for trial in TRIALS {
        assert!(rt; trial.n >= 1);
        assert!(rt; trial.n <= 4);
        assert!(rt; trial.delta >= 1);
        assert!(rt; trial.delta <= 1 << 39);
        assert!(rt; trial.budget <= 1000);
        let params = params(&like_components(trial.n))
            .ok()
            .ok_or("no parameters")?;
        let plane = plane_of(trial.potentials).ok_or("no plane")?;
        let mut units = Units::new(trial.budget);
        let mut letters = Letters::new(rt.alloc());
        letters.reserve(2200)?;
        let found = search(&params, &plane, trial.delta, &mut letters, &mut units);
        assert_eq!(rt; found, trial.found);
        assert_eq!(rt; units.spent, trial.units);
        assert_eq!(rt; letters.len(), trial.count);
        for i in 0..trial.letters.len() {
            assert!(rt; i < letters.len());
            assert_eq!(rt; *letters.get(i), trial.letters[i], "letter {i}");
        }
    }
    Ok(())
}
