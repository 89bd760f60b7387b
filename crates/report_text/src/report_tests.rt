//! Joules, millionths, and whole reports of mixtures, from answers that an independent program printed.

ghost use Rattle.std.specs.Prelude.{◌≤◌, length};

use crate::ends::End;
use crate::joules::millijoules;
use crate::reports::{put_phase, report};
use crate::texts::{put_fixed, put_millionths};
use arrayvec::ArrayVec;
use case_types::{
    Answer, Columns, Letters, Outcome, Phase, Pivots, Plane, Rounds, SLOTS, Split, Work,
};
use case_words::{Job, Word, read_words};
use component_table::{Picked, pick, read_table};
use pr_params::params;
use std::alloc::Global;
use std::test::Fail;

/// Energies in 2^-40 bit, and mJ of one mole at 300 K.
const JOULES: [(i128, i128); 11] = [
    // A bit: RT ln 2; and three quarters of 2^-10 bit.
    (1 << 40, 1_728_944),
    (805_306_368, 1_267),
    // Exact, and rounded up.
    (0, 0),
    (1_663_314_087_108_411_392, 2_615_503_786_288),
    (1_663_314_087_108_411_393, 2_615_503_786_289),
    (1, 1),
    // Negative.
    (-1, 0),
    (-1_663_314_087_108_411_392, -2_615_503_786_288),
    (-1_663_314_087_108_411_393, -2_615_503_786_288),
    // The greatest and the least.
    (i128::MAX, 267_541_117_455_451_462_671_808_434_409_698),
    (i128::MIN, -267_541_117_455_451_462_671_808_434_409_697),
];

#[test]
fn rounds_joules_up(rt: HostRuntime) {
    for (energy, want) in JOULES {
        assert_eq!(rt; millijoules(energy, 300_000), want, "{energy}");
    }
}

/// Parts, wholes, and the one in millionths of the other.
const SHARES: [(u128, u128, &str); 8] = [
    (0, 7, "0.000000\n"),
    (7, 7, "1.000000\n"),
    (1, 3, "0.333333\n"),
    (2, 3, "0.666666\n"),
    (1, 1_000_001, "0.000000\n"),
    (4_123_168_604_160, 5_497_558_138_880, "0.750000\n"),
    // No whole, and the greatest part.
    (0, 0, "0.000000\n"),
    (
        (1 << 106) - 1,
        1,
        "81129638414606681695789005144063.000000\n",
    ),
];

#[test]
fn rounds_shares_down(rt: HostRuntime) -> Result<(), Fail> {
    for (part, whole, want) in SHARES {
        let mut text = Vec::new(rt.alloc());
        put_millionths(&mut text, "", part, whole)?;
        assert_eq!(rt; text.as_slice(), want.as_bytes());
    }
    Ok(())
}

/// No list of work: a report doesn't read it.
fn no_work(alloc: Global) -> Work {
    Work {
        columns: Columns::new(alloc),
        pivots: Pivots::new(alloc),
        letters: Letters::new(alloc),
        rounds: Rounds::new(alloc),
    }
}

/// What words pick in a table, and their tolerance.
fn picked_of(alloc: Global, words: &[&str], table: &str) -> Result<(Picked, u32), Fail>
    requires { length table.now ≤ 4194304 }
{
    let mut list = Vec::new(alloc);
    for word in words {
        list.push(Word::new(word.as_bytes().to_vec(alloc)?))?;
    }
    let Ok(Job::Tp(job)) = read_words(&list) else {
        return Err("words".into());
    };
    let table = read_table(alloc, table.as_bytes()).ok().ok_or("table")?;
    let picked = pick(&table, &job).ok().ok_or("names")?;
    Ok((picked, job.tol))
}

/// The report of words and a table with this answer.
fn report_of(alloc: Global, words: &[&str], table: &str, answer: Answer) -> Result<Vec<u8>, Fail>
    requires { length table.now ≤ 4194304 }
{
    let (picked, tol) = picked_of(alloc, words, table)?;
    let params = params(&picked.case).ok().ok_or("ranges")?;
    let text = report(alloc, &End::Flash(params, picked, tol, answer))?;
    Ok(text)
}

const TWO_PHASES: &str = "closed units=965\nT=476.208 P=7241462 tol=262144\nenergy=-574660166\n\
    gap=137403711127\ngap-joules-per-mole=342.970\nsum=10720238370816 phases=2\n\
    phase 1 liquid packing=824633720832 share=0.487179\n\
    part water 5222680231936 x=1.000000\npart propane 0 x=0.000000\npart nitrogen 0 x=0.000000\n\
    phase 2 vapour packing=68719476736 share=0.512820\n\
    part water 1374389534720 x=0.250000\npart propane 0 x=0.000000\n\
    part nitrogen 4123168604160 x=0.750000\n\
    plane -807591425024 1290652164437\nlow=-137403711446\n\
    two 1630477228166597776 1630477228166597777\ne 1586259924992 1586260020565\n\
    t water 241464771181504 241464771181505\nt nitrogen 546792090354092 546792090354093\n\
    q water nitrogen 37176888393015033 37176888393015034\n";

#[test]
fn prints_two_phases_and_a_name_without_a_part(rt: HostRuntime) -> Result<(), Fail> {
    let alloc = rt.alloc();
    let words = [
        "tp",
        "T=476.208",
        "P=7241462",
        "z=8,0,5",
        "names=water,propane,nitrogen",
        "tol=262144",
        "budget=20000",
    ];
    let table = "comp,water,647.096,22064000,0.3443,\ncomp,propane,369.83,4248000,0.1523,\n\
        comp,nitrogen,126.192,3395800,0.0372,\nk,water,nitrogen,0.1516,,\n";
    let mut phases: ArrayVec<Phase, SLOTS> = ArrayVec::new();
    phases.push(Phase {
        parts: [5_222_680_231_936, 0, 0, 0],
        packing: 824_633_720_832,
    });
    phases.push(Phase {
        parts: [1_374_389_534_720, 4_123_168_604_160, 0, 0],
        packing: 68_719_476_736,
    });
    let answer = Answer {
        outcome: Outcome::Closed,
        split: Split {
            sum: 10_720_238_370_816,
            phases,
        },
        u: -574_660_166,
        plane: Plane {
            lam: [-807_591_425_024, 1_290_652_164_437, 0, 0],
        },
        low: -137_403_711_446,
        gap: 137_403_711_127,
        units: 965,
        work: no_work(alloc),
    };
    let text = report_of(alloc, &words, table, answer)?;
    assert_eq!(rt; text.as_slice(), TWO_PHASES.as_bytes());
    Ok(())
}

const FOUR_PHASES: &str = "open spent units=1\nT=464.491 P=1146420 tol=262144\n\
    energy=-1192408477174\ngap=32303690607301\ngap-joules-per-mole=78648.289\n\
    sum=27805293851136471018242048 phases=4\n\
    phase 1 vapour packing=17179869184 share=0.391304\n\
    part propane 10880332376531662572355584 x=1.000000\npart eicosane 0 x=0.000000\n\
    part co2 0 x=0.000000\npart methane 0 x=0.000000\n\
    phase 2 liquid packing=962072674304 share=0.260869\npart propane 0 x=0.000000\n\
    part eicosane 7253554917687775048237056 x=1.000000\n\
    part co2 0 x=0.000000\npart methane 0 x=0.000000\n\
    phase 3 vapour packing=17179869184 share=0.260869\npart propane 0 x=0.000000\n\
    part eicosane 0 x=0.000000\npart co2 7253554917687775048237056 x=1.000000\n\
    part methane 0 x=0.000000\n\
    phase 4 vapour packing=17179869184 share=0.086956\npart propane 0 x=0.000000\n\
    part eicosane 0 x=0.000000\npart co2 0 x=0.000000\n\
    part methane 2417851639229258349412352 x=1.000000\n\
    plane 1516757473280 -9310556792832 1842019469312 1867505857536\nlow=-32303690607669\n\
    two 1630477228166597776 1630477228166597777\ne 1586259924992 1586260020565\n\
    t propane 315447707012135 315447707012136\nt eicosane 218901044383778 218901044383779\n\
    t co2 347856594277869 347856594277870\nt methane 439448527431666 439448527431667\n\
    q propane eicosane 9534130890497417 9534130890497418\n\
    q propane co2 24043674368813605 24043674368813606\n\
    q propane methane 18984242075481536 18984242075481537\n\
    q eicosane co2 12564279186000837 12564279186000838\n\
    q eicosane methane 9920418731022081 9920418731022082\n\
    q co2 methane 25017835428366947 25017835428366948\n";

#[test]
fn prints_four_phases_and_six_pairs(rt: HostRuntime) -> Result<(), Fail> {
    let alloc = rt.alloc();
    let words = [
        "tp",
        "T=464.491",
        "P=1146420",
        "z=9,6,6,2",
        "names=propane,eicosane,co2,methane",
        "kappa=78",
        "tol=262144",
        "budget=1",
    ];
    let table = "comp,propane,369.83,4248000,0.1523,\ncomp,eicosane,768.0,1160000,0.9069,\n\
        comp,co2,304.128,7377300,0.2239,\ncomp,methane,190.564,4599200,0.0114,\n";
    let mut phases: ArrayVec<Phase, SLOTS> = ArrayVec::new();
    phases.push(Phase {
        parts: [10_880_332_376_531_662_572_355_584, 0, 0, 0],
        packing: 17_179_869_184,
    });
    phases.push(Phase {
        parts: [0, 7_253_554_917_687_775_048_237_056, 0, 0],
        packing: 962_072_674_304,
    });
    phases.push(Phase {
        parts: [0, 0, 7_253_554_917_687_775_048_237_056, 0],
        packing: 17_179_869_184,
    });
    phases.push(Phase {
        parts: [0, 0, 0, 2_417_851_639_229_258_349_412_352],
        packing: 17_179_869_184,
    });
    let answer = Answer {
        outcome: Outcome::Spent,
        split: Split {
            sum: 27_805_293_851_136_471_018_242_048,
            phases,
        },
        u: -1_192_408_477_174,
        plane: Plane {
            lam: [
                1_516_757_473_280,
                -9_310_556_792_832,
                1_842_019_469_312,
                1_867_505_857_536,
            ],
        },
        low: -32_303_690_607_669,
        gap: 32_303_690_607_301,
        units: 1,
        work: no_work(alloc),
    };
    let text = report_of(alloc, &words, table, answer)?;
    assert_eq!(rt; text.as_slice(), FOUR_PHASES.as_bytes());
    Ok(())
}

#[test]
fn prints_phases_and_kelvins(rt: HostRuntime) -> Result<(), Fail> {
    let alloc = rt.alloc();
    let words = [
        "tp",
        "T=300",
        "P=1000000",
        "z=0,7",
        "names=b,a",
        "tol=1024",
        "budget=10",
    ];
    let table = "comp,a,300,1000000,0,\ncomp,b,400,1000000,0,\n";
    let (picked, _) = picked_of(alloc, &words, table)?;
    let mut text = Vec::new(alloc);
    put_fixed(&mut text, 273_150, 3)?;
    put_fixed(&mut text, 50_009, 3)?;
    // The least packing of a liquid, and the one below it.
    for (k, packing) in [(1, 278_286_392_991), (2, 278_286_392_990)] {
        let phase = Phase {
            parts: [7, 0, 0, 0],
            packing,
        };
        put_phase(&mut text, &picked, 14, k, &phase)?;
    }
    let want = b"273.15050.009phase 1 liquid packing=278286392991 share=0.500000\n\
        part b 0 x=0.000000\npart a 7 x=1.000000\n\
        phase 2 vapour packing=278286392990 share=0.500000\n\
        part b 0 x=0.000000\npart a 7 x=1.000000\n";
    assert_eq!(rt; text.as_slice(), want.as_slice());
    Ok(())
}
