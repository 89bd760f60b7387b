//! Potentials against numbers that an independent program computed from the exact formula, and the ends of the range.

use super::*;
use case_types::{Case, Phase, SLOTS};
use pr_params::params;
use sample_cases::{like_components, methane_to_nitrogen};
use std::test::Fail;

/// The parts of a phase, its packing, and its exact potentials, in 2^-40 bit and kept to 2^20 bit.
type Known = (u8, [u128; SLOTS], u64, [i128; SLOTS]);

/// A component at its critical point.
const ONE_COMPONENT: [Known; 8] = [
    (
        1,
        [1, 0, 0, 0],
        549_755_813_888,
        [1_185_273_313_017, 0, 0, 0],
    ),
    (1, [1, 0, 0, 0], 274_877_906_944, [884_913_958_666, 0, 0, 0]),
    (
        1,
        [1, 0, 0, 0],
        1_073_741_824,
        [-5_373_242_106_770, 0, 0, 0],
    ),
    (1, [1, 0, 0, 0], 1_048_576, [-16_353_291_905_947, 0, 0, 0]),
    (1, [1, 0, 0, 0], 1, [-38_343_509_705_532, 0, 0, 0]),
    (
        1,
        [1, 0, 0, 0],
        1_099_511_627_775,
        [1_152_921_504_606_846_976, 0, 0, 0],
    ),
    (
        1,
        [1, 0, 0, 0],
        1_099_507_433_472,
        [415_841_904_815_623_921, 0, 0, 0],
    ),
    (
        1,
        [1, 0, 0, 0],
        700_000_000_000,
        [2_050_999_400_240, 0, 0, 0],
    ),
];

/// The first components of a mixture: at half the densest packing, in a gas, in a dense liquid with few parts of a
/// component, with no part of one or more, and at both ends of the packing.
const MIXTURES: [Known; 21] = [
    (
        2,
        [1, 1, 1, 1],
        549_755_813_888,
        [2_102_816_259_285, -1_505_544_502_996, 0, 0],
    ),
    (
        2,
        [1, 2, 4, 8],
        68_719_476_736,
        [-1_233_444_979_866, -908_514_531_425, 0, 0],
    ),
    (
        2,
        [
            1_152_921_504_606_846_976,
            3,
            5_497_558_138_880,
            7_881_299_347_898_368,
        ],
        900_000_000_000,
        [11_220_670_832_836, -51_549_650_427_326, 0, 0],
    ),
    (
        2,
        [2, 0, 1, 0],
        350_000_000_000,
        [3_555_337_074_281, -20_711_694_974_477, 0, 0],
    ),
    (
        2,
        [1, 0, 0, 0],
        34_359_738_368,
        [541_500_274_235, -21_788_631_951_922, 0, 0],
    ),
    (
        2,
        [97, 3, 20, 41],
        1,
        [-37_856_085_701_008, -43_370_081_914_180, 0, 0],
    ),
    (
        2,
        [97, 3, 20, 41],
        1_099_511_627_775,
        [1_152_921_504_606_846_976, 1_152_921_504_606_846_976, 0, 0],
    ),
    (
        3,
        [1, 1, 1, 1],
        549_755_813_888,
        [-61_571_624_380, -4_130_396_951_058, -16_394_600_875_895, 0],
    ),
    (
        3,
        [1, 2, 4, 8],
        68_719_476_736,
        [
            -4_155_245_762_565,
            -3_824_029_921_614,
            -5_203_273_320_567,
            0,
        ],
    ),
    (
        3,
        [
            1_152_921_504_606_846_976,
            3,
            5_497_558_138_880,
            7_881_299_347_898_368,
        ],
        900_000_000_000,
        [
            11_220_416_610_048,
            -51_550_140_753_263,
            9_245_946_252_934,
            0,
        ],
    ),
    (
        3,
        [2, 0, 1, 0],
        350_000_000_000,
        [744_314_608_204, -23_499_276_070_271, -12_061_772_778_232, 0],
    ),
    (
        3,
        [1, 0, 0, 0],
        34_359_738_368,
        [541_500_274_235, -21_788_631_951_922, -22_783_215_249_350, 0],
    ),
    (
        3,
        [97, 3, 20, 41],
        1,
        [
            -39_223_441_587_251,
            -44_737_437_800_423,
            -41_728_112_304_851,
            0,
        ],
    ),
    (
        3,
        [97, 3, 20, 41],
        1_099_511_627_775,
        [
            1_152_921_504_606_846_976,
            1_152_921_504_606_846_976,
            1_152_921_504_606_846_976,
            0,
        ],
    ),
    (
        4,
        [1, 1, 1, 1],
        549_755_813_888,
        [
            -27_668_628_215,
            -3_843_355_336_906,
            -15_340_179_046_511,
            1_020_387_547_295,
        ],
    ),
    (
        4,
        [1, 2, 4, 8],
        68_719_476_736,
        [
            -4_420_865_907_143,
            -4_017_944_459_515,
            -5_205_616_384_081,
            -954_935_202_283,
        ],
    ),
    (
        4,
        [
            1_152_921_504_606_846_976,
            3,
            5_497_558_138_880,
            7_881_299_347_898_368,
        ],
        900_000_000_000,
        [
            11_222_871_523_793,
            -51_528_892_357_655,
            9_307_580_098_268,
            4_368_860_358_459,
        ],
    ),
    (
        4,
        [2, 0, 1, 0],
        350_000_000_000,
        [
            744_314_608_204,
            -23_499_276_070_271,
            -12_061_772_778_232,
            -19_889_243_163_370,
        ],
    ),
    (
        4,
        [1, 0, 0, 0],
        34_359_738_368,
        [
            541_500_274_235,
            -21_788_631_951_922,
            -22_783_215_249_350,
            -21_348_361_530_597,
        ],
    ),
    (
        4,
        [97, 3, 20, 41],
        1,
        [
            -39_445_348_997_040,
            -44_959_345_210_211,
            -41_950_019_714_637,
            -40_811_339_183_838,
        ],
    ),
    (
        4,
        [97, 3, 20, 41],
        1_099_511_627_775,
        [
            1_152_921_504_606_846_976,
            1_152_921_504_606_846_976,
            1_152_921_504_606_846_976,
            1_152_921_504_606_846_976,
        ],
    ),
];

/// A component at its critical point, or two to four components.
fn case_of(n: u8) -> Option<Case> {
    match n {
        1 => Some(like_components(1)),
        2..=4 => Some(methane_to_nitrogen(n)),
        _ => None,
    }
}

/// Whether a number is within 2^-32 bit of another, or within 2^-32 of its size where that is above one bit.
fn is_near(near: i128, exact: i128) -> bool {
    let limit = 1 << 100;
    let near = near.clamp(-limit, limit);
    let exact = exact.clamp(-limit, limit);
    let far = (near - exact).unsigned_abs();
    far <= 1 << 8 || far <= exact.unsigned_abs() >> 32
}

#[test]
fn potentials_of_one_component(rt: HostRuntime) -> Result<(), Fail> {
    for (n, parts, packing, exact) in ONE_COMPONENT {
        let case = case_of(n).ok_or("no case")?;
        let params = params(&case).ok().ok_or("no parameters")?;
        let near = mu_near(&params, &Phase { parts, packing });
        for i in 0..SLOTS {
            assert!(rt;
                is_near(near[i], exact[i]),
                "{} for {} at {packing}",
                near[i],
                exact[i]
            );
        }
    }
    Ok(())
}

#[test]
fn potentials_of_mixtures(rt: HostRuntime) -> Result<(), Fail> {
    for (n, parts, packing, exact) in MIXTURES {
        let case = case_of(n).ok_or("no case")?;
        let params = params(&case).ok().ok_or("no parameters")?;
        let near = mu_near(&params, &Phase { parts, packing });
        for i in 0..SLOTS {
            assert!(rt;
                is_near(near[i], exact[i]),
                "{} for {} of {n} at {packing}",
                near[i],
                exact[i]
            );
        }
    }
    Ok(())
}

/// Phases that no split has: no part at all, more parts than are counted, and packings that aren't strictly between 0 and 1.
#[test]
fn potentials_of_odd_phases(rt: HostRuntime) -> Result<(), Fail> {
    let most = 1 << 60;
    for (n, parts, packing) in [
        (1, [0; SLOTS], 1 << 39),
        (4, [0; SLOTS], 0),
        (4, [u128::MAX; SLOTS], u64::MAX),
        (3, [u128::MAX, 1, 0, u128::MAX], 0),
        (2, [0, u128::MAX, 5, 7], 1 << 40),
    ] {
        let case = case_of(n).ok_or("no case")?;
        let params = params(&case).ok().ok_or("no parameters")?;
        let near = mu_near(&params, &Phase { parts, packing });
        for i in 0..SLOTS {
            assert!(rt;
                near[i] >= -most && near[i] <= most,
                "{} at {packing}",
                near[i]
            );
            assert!(rt; i < n as usize || near[i] == 0, "{} at {packing}", near[i]);
        }
    }
    Ok(())
}
