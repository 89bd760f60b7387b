//! What flashes of mixtures answer, as an independent program computed it.

use case_types::{Outcome, Phase, SLOTS};

/// What an answer says beside its list of work. Energies are in 2^-40 bit.
#[derive(Clone, Copy, Debug, PartialEq, Eq)]
pub struct Summary {
    pub outcome: Outcome,
    pub units: u32,
    pub u: i128,
    pub gap: i128,
    pub low: i128,
    pub plane: [i128; SLOTS],
    pub sum: u128,
    pub phases: usize,
    pub last: Phase,
}

/// The tolerance in 2^-20 bit, the budget and the answer: of two and of four like components, of two to four different ones, and of
/// methane and decane.
pub const WANTED: [(u32, u32, Summary); 6] = [
    (
        1_048_576,
        200_000,
        Summary {
            outcome: Outcome::Closed,
            units: 51,
            u: -214_638_742_028,
            gap: 547_091_713_727,
            low: -547_091_714_251,
            plane: [-214_672_295_936, -214_605_187_072, 0, 0],
            sum: 2,
            phases: 1,
            last: Phase {
                parts: [1, 1, 0, 0],
                packing: 266_171_709_390,
            },
        },
    ),
    (
        1_024,
        2_000,
        Summary {
            outcome: Outcome::Spent,
            units: 2_000,
            u: -1_314_150_369_804,
            gap: 6_543_679_059_665,
            low: -6_543_679_060_189,
            plane: [
                -1_314_217_478_144,
                -1_314_217_478_144,
                -1_314_217_478_144,
                -1_313_949_042_688,
            ],
            sum: 4,
            phases: 1,
            last: Phase {
                parts: [1, 1, 1, 1],
                packing: 266_171_709_390,
            },
        },
    ),
    (
        1_048_576,
        20_000,
        Summary {
            outcome: Outcome::Closed,
            units: 80,
            u: -476_141_066_648,
            gap: 548_147_232_957,
            low: -547_810_184_723,
            plane: [806_662_560_610, -1_759_618_790_374, 0, 0],
            sum: 2,
            phases: 1,
            last: Phase {
                parts: [1, 1, 0, 0],
                packing: 539_514_063_537,
            },
        },
    ),
    (
        1_048_576,
        60,
        Summary {
            outcome: Outcome::Spent,
            units: 60,
            u: -648_488_086_576,
            gap: 9_461_177_139_391,
            low: -9_457_500_038_513,
            plane: [-403_980_606_580, -1_434_361_527_910, -118_153_427_871, 0],
            sum: 3,
            phases: 1,
            last: Phase {
                parts: [1, 1, 1, 0],
                packing: 107_115_256_934,
            },
        },
    ),
    (
        1_048_576,
        60,
        Summary {
            outcome: Outcome::Spent,
            units: 60,
            u: -2_052_930_510_102,
            gap: 15_067_059_274_508,
            low: -15_067_059_282_900,
            plane: [
                -285_192_579_807,
                -2_578_261_952_631,
                228_425_295_243,
                -5_576_692_769_642,
            ],
            sum: 4_398_046_511_104,
            phases: 2,
            last: Phase {
                parts: [
                    541_585_292_416,
                    189_095_050_216,
                    676_348_802_176,
                    39_192_040_216,
                ],
                packing: 76_810_950_861,
            },
        },
    ),
    (
        1_024,
        20,
        Summary {
            outcome: Outcome::Spent,
            units: 20,
            u: -6_269_218_018_571,
            gap: 23_852_859_510_498,
            low: -23_852_859_509_309,
            plane: [1_421_098_262_296, -13_959_534_301_816, 0, 0],
            sum: 2_199_023_255_552,
            phases: 2,
            last: Phase {
                parts: [800_247_894_016, 226_635_776, 0, 0],
                packing: 65_646_236_645,
            },
        },
    ),
];
