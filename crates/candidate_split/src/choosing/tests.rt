//! Points near phases, as an independent program computed them.

use super::*;
use case_types::{Case, SLOTS};
use pr_params::params;
use sample_cases::{ethane_to_benzene, like_components, methane_to_nitrogen};
use std::process::Abort;
use std::test::Fail;

/// The composition, the packing fraction and the amount of a point.
type Known = ([u32; SLOTS], u64, u64);

/// Of the first components of methane, propane, decane and nitrogen: how many there are, and the points.
const METHANE_TO_NITROGEN: [(u8, [Known; 2]); 3] = [
    (
        2,
        [
            ([720_050, 328_526, 0, 0], 109_710_581_201, 499_345_977),
            ([265_014, 783_562, 0, 0], 624_009_344_876, 365_637_406),
        ],
    ),
    (
        3,
        [
            ([215_459, 399_812, 433_305, 0], 896_124_104_515, 354_745_808),
            ([908_440, 139_880, 256, 0], 80_624_430_156, 109_255_170),
        ],
    ),
    (
        4,
        [
            (
                [99_034, 392_251, 507_580, 49_711],
                917_162_433_509,
                472_305_375,
            ),
            (
                [436_230, 123_279, 192, 488_875],
                70_064_308_486,
                244_365_393,
            ),
        ],
    ),
];

/// Of the first components of ethane, butane, carbon dioxide and benzene.
const ETHANE_TO_BENZENE: [(u8, [Known; 2]); 2] = [
    (
        2,
        [
            ([511_816, 536_760, 0, 0], 547_864_552_544, 472_316_814),
            ([774_185, 274_391, 0, 0], 120_484_552_366, 37_015_328),
        ],
    ),
    (
        4,
        [
            (
                [198_192, 323_407, 150_320, 376_657],
                742_147_523_538,
                425_159_111,
            ),
            (
                [392_673, 137_100, 490_386, 28_417],
                76_810_950_278,
                182_576_992,
            ),
        ],
    ),
];

/// Of two like components: one point alone.
const LIKE_COMPONENTS: Known = ([524_288, 524_288, 0, 0], 266_171_709_390, 214_748_364);

/// Asserts that the points of the case are the known ones.
fn assert_points(rt: &impl Abort, case: &Case, known: &[Known]) -> Result<(), Fail> {
    let params = params(case).ok().ok_or("no parameters")?;
    let points = near_points(&params);
    assert_eq!(rt; points.len(), known.len());
    for (point, (comp, packing, amount)) in points.iter().zip(known) {
        assert_eq!(rt; point.comp, *comp);
        assert_eq!(rt; point.packing, *packing);
        assert_eq!(rt; point.amount, *amount);
    }
    Ok(())
}

#[test]
fn points_of_mixtures(rt: HostRuntime) -> Result<(), Fail> {
    for (n, known) in METHANE_TO_NITROGEN {
        assert_points(&rt, &methane_to_nitrogen(n), &known)?;
    }
    for (n, known) in ETHANE_TO_BENZENE {
        assert_points(&rt, &ethane_to_benzene(n), &known)?;
    }
    assert_points(&rt, &like_components(2), &[LIKE_COMPONENTS])
}
