//! Splits against rows by hand and against candidates of an independent program, and columns of a surface that is told by hand.

ghost use Rattle.std.specs.Prelude.{◌≡◌, ◌≤◌, ◌^◌};
ghost use Rattle.candidate_split.specs.TwoPhases.{IsComposition};

use super::*;
use crate::levels::Level;
use case_types::{Case, Plane, SLOTS, adds_up};
use pr_params::params;
use sample_cases::{ethane_to_benzene, like_components, methane_to_nitrogen};
use std::process::Abort;
use std::test::Fail;

/// The composition of two components of which the first has this fraction, in 2^-20.
fn composition(first: u32) -> [u32; SLOTS]
    requires { first ≤ 2 ^ 20 }
    ensures { IsComposition 2 result }
{
    [first, (1 << 20) - first, 0, 0]
}

/// A share and the first of two fractions, and the parts of the phases, of which none are kept for one that isn't there.
type Row = (u32, u32, [[u128; SLOTS]; 2]);

const ROWS: [Row; 3] = [
    (
        524_288,
        786_432,
        [
            [824_633_720_832, 274_877_906_944, 0, 0],
            [274_877_906_944, 824_633_720_832, 0, 0],
        ],
    ),
    (0, 786_432, [[1 << 40, 1 << 40, 0, 0], [0; SLOTS]]),
    (1 << 20, 524_288, [[1 << 40, 1 << 40, 0, 0], [0; SLOTS]]),
];

#[test]
fn splits_equal_parts(rt: HostRuntime) -> Result<(), Fail> {
    let case = like_components(2);
    for (v, first, parts) in ROWS {
        assert!(rt; v <= 1 << 20);
        assert!(rt; first <= 1 << 20);
        let split = two_phase(&case, v, &composition(first), 1, 2).ok_or("no split")?;
        assert_eq!(rt; split.sum, 1 << 41);
        for (phase, parts) in split.phases.iter().zip(&parts) {
            assert_eq!(rt; phase.parts, *parts, "at {v}");
        }
        assert_eq!(rt;
            split.phases.len(),
            if parts[1] == [0; SLOTS] { 1 } else { 2 }
        );
    }
    assert!(rt; two_phase(&case, 1 << 20, &composition(1 << 20), 1, 2).is_none());
    Ok(())
}

/// A split by the parts of its first phase, its packing fraction, and that of the rest if there is one.
type Known = ([u128; SLOTS], u64, Option<u64>);

/// Of ethane alone.
const ETHANE: [Known; 1] = [([1, 0, 0, 0], 78_744_050_340, None)];

/// Of two like components.
const LIKE: [Known; 3] = [
    ([1, 1, 0, 0], 266_171_709_390, None),
    (
        [4_328_267_776, 4_261_666_816, 0, 0],
        266_171_709_390,
        Some(266_171_709_373),
    ),
    (
        [4_261_666_816, 4_328_267_776, 0, 0],
        266_171_709_390,
        Some(266_171_709_373),
    ),
];

/// Of methane and propane.
const METHANE_PROPANE: [Known; 4] = [
    (
        [860_409_346_500, 392_565_573_180, 0, 0],
        109_710_581_201,
        Some(624_009_018_505),
    ),
    (
        [5_927_223_296, 2_662_711_296, 0, 0],
        108_997_969_531,
        Some(195_881_259_899),
    ),
    (
        [5_869_920_256, 2_720_014_336, 0, 0],
        110_437_077_392,
        Some(195_845_963_813),
    ),
    (
        [2_170_994_688, 6_418_939_904, 0, 0],
        624_009_344_876,
        Some(193_625_385_823),
    ),
];

/// Of ethane, butane, carbon dioxide and benzene.
const FOUR: [Known; 6] = [
    (
        [
            557_926_335_360,
            910_416_577_560,
            423_162_825_600,
            1_060_319_587_560,
        ],
        742_147_523_538,
        Some(76_810_950_861),
    ),
    (
        [3_288_203_264, 5_283_086_336, 2_455_584_768, 6_152_994_816],
        741_466_869_110,
        Some(647_550_757_494),
    ),
    (
        [3_231_596_544, 5_355_667_456, 2_451_030_016, 6_141_575_168],
        742_056_684_747,
        Some(647_546_689_531),
    ),
    (
        [3_239_919_616, 5_286_854_656, 2_495_725_568, 6_157_369_344],
        741_494_924_752,
        Some(647_550_480_138),
    ),
    (
        [3_229_040_640, 5_269_110_784, 2_449_096_704, 6_232_621_056],
        743_563_230_899,
        Some(647_536_241_275),
    ),
    (
        [6_433_554_432, 2_246_246_400, 8_034_484_224, 465_584_128],
        76_810_950_278,
        Some(649_040_325_502),
    ),
];

/// Asserts that the candidates of the case are the known ones.
fn assert_candidates(rt: &impl Abort, case: &Case, known: &[Known]) -> Result<(), Fail> {
    let params = params(case).ok().ok_or("no parameters")?;
    let list = candidates(&params);
    assert_eq!(rt; list.len(), known.len());
    for (split, (parts, packing, rest)) in list.iter().zip(known) {
        assert!(rt; adds_up(case, split));
        assert_eq!(rt; split.phases[0].parts, *parts);
        assert_eq!(rt; split.phases[0].packing, *packing);
        let second = if split.phases.len() == 2 {
            Some(split.phases[1].packing)
        } else {
            None
        };
        assert_eq!(rt; second, *rest);
    }
    Ok(())
}

#[test]
fn candidates_of_mixtures(rt: HostRuntime) -> Result<(), Fail> {
    assert_candidates(&rt, &ethane_to_benzene(1), &ETHANE)?;
    assert_candidates(&rt, &like_components(2), &LIKE)?;
    assert_candidates(&rt, &methane_to_nitrogen(2), &METHANE_PROPANE)?;
    assert_candidates(&rt, &ethane_to_benzene(4), &FOUR)
}

/// Three like components: the fractions are completed to 1.
#[test]
fn columns_on_the_grid(rt: HostRuntime) -> Result<(), Fail> {
    let case = like_components(3);
    let surface = Level { count: 3 };
    let params = params(&case).ok().ok_or("no parameters")?;
    let list = candidates(&params);
    assert!(rt; list.len() > 1);
    let split = &list[1];
    assert!(rt; adds_up(&case, split));
    let columns = columns_of(&surface, &case, split);
    let known = [
        ([353_150, 347_713, 347_713, 0], 266_171_709_390, 259_933_310),
        ([349_511, 349_533, 349_532, 0], 266_171_709_131, 259_933_310),
    ];
    assert_eq!(rt; columns.len(), known.len());
    for (column, (comp, packing, cost)) in columns.iter().zip(&known) {
        assert_eq!(rt; column.comp, *comp);
        assert_eq!(rt; column.packing, *packing);
        assert_eq!(rt; column.cost, *cost);
    }
    Ok(())
}

/// Under a plane that is 0, the lower packing fraction is the better one.
#[test]
fn polishes_a_column(rt: HostRuntime) -> Result<(), Fail> {
    let case = like_components(2);
    let surface = Level { count: 2 };
    let params = params(&case).ok().ok_or("no parameters")?;
    let plane = Plane { lam: [0; SLOTS] };
    for (packing, polished) in [(1 << 39, 266_171_709_390), (1 << 37, 1 << 37)] {
        assert!(rt; packing >= 1);
        assert!(rt; packing < 1 << 40);
        let split = two_phase(&case, 0, &composition(524_288), 1, packing).ok_or("no split")?;
        let columns = columns_of(&surface, &case, &split);
        assert_eq!(rt; columns.len(), 1);
        let column = polish(&surface, &params, &plane, columns[0]);
        assert_eq!(rt; column.packing, polished, "from {packing}");
        assert_eq!(rt; column.comp, [524_288, 524_288, 0, 0]);
    }
    Ok(())
}
