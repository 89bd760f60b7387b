//! Mixing sums of more components, worked by hand, and boxes of phases.

ghost use Rattle.std.specs.Prelude.{◌≡◌, ◌≤◌};

use super::*;
use crate::mixes::{ONE, entropy};
use case_types::{BoxX, Phase, SLOTS};
use density_boxes::{moles, phase_box};
use log_enclose::Logarithms;
use sample_cases::like_components;
use std::test::Fail;

/// A half in 2^-40.
const HALF: u64 = 1 << 39;

/// A quarter in 2^-40.
const QUARTER: u64 = 1 << 38;

/// The box of the phase of `n` components, if one of them has a part and none has 2^104.
pub fn box_of_phase(n: u8, parts: [u128; SLOTS]) -> Option<BoxX>
    requires some { 1 ≤ n }
    requires few { n ≤ 4 }
{
    let limit = 1 << 104;
    if parts[0] >= limit || parts[1] >= limit || parts[2] >= limit || parts[3] >= limit {
        return None;
    }
    let phase = Phase {
        parts,
        packing: 1 << 39,
    };
    if moles(n, &phase) == 0 {
        return None;
    }
    Some(phase_box(&like_components(n), &phase))
}

/// The least fraction times the logarithm of the greatest, over the components. The logarithm of `1/2^k` is `-k`.
#[test]
fn mixing_sums(rt: HostRuntime) {
    let halves = BoxX {
        a: [HALF, HALF, 0, 0],
        b: [HALF, HALF, 0, 0],
    };
    let quarters = BoxX {
        a: [QUARTER; SLOTS],
        b: [QUARTER; SLOTS],
    };
    let mixed = BoxX {
        a: [QUARTER, HALF, 0, 0],
        b: [HALF, ONE, QUARTER, 0],
    };
    for (n, x, most) in [
        // -1/2 once, and twice
        (1, halves, -549_755_813_888),
        (2, halves, -1_099_511_627_776),
        // -2/4 three and four times
        (3, quarters, -1_649_267_441_664),
        (4, quarters, -2_199_023_255_552),
        // -1/4, and nothing of the others
        (4, mixed, -274_877_906_944),
    ] {
        assert_eq!(rt; entropy(Logarithms::Anew, n, &x), most, "at {n} {most}");
    }
}
