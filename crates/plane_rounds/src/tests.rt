//! Flashes against numbers that an independent program computed, refused cases, and the lists of work.

ghost use Rattle.std.specs.Prelude.{◌≡◌, ◌≤◌, ◌<◌, ◌^◌};

use super::*;
use crate::samples::{Summary, WANTED};
use arrayvec::ArrayVec;
use case_types::{
    Answer, Case, FlashFault, Letters, Outcome, ParamFault, Phase, Row, SLOTS, Split, adds_up,
};
use energy_surface::Flash;
use pr_params::params;
use sample_cases::{
    NAMELESS, equal_parts, ethane_to_benzene, like_components, methane_to_nitrogen,
};
use std::test::Fail;

/// Twice the feed of one part, in one phase.
fn with_two_parts(packing: u64) -> Split
    requires some { 1 ≤ packing }
    requires inside { packing < 2 ^ 40 }
{
    let mut phases: ArrayVec<Phase, SLOTS> = ArrayVec::new();
    phases.push(Phase {
        parts: [2, 0, 0, 0],
        packing,
    });
    Split { sum: 1, phases }
}

/// The upper energy, the gap, the least low and the first potential of the plane.
type Energies = (i128, i128, i128, i128);

#[test]
fn flashes_critical_point(rt: HostRuntime) -> Result<(), Fail> {
    let case = like_components(1);
    let params = params(&case).ok().ok_or("no parameters")?;
    // The budget, the units, how the flash ends, and its energies where they are known.
    let cases: [(u32, u32, Outcome, Option<Energies>); 3] = [
        (
            200_000,
            54,
            Outcome::Closed,
            Some((884_872_885_748, 523_714_014, -523_714_538, 884_872_886_272)),
        ),
        (1, 1, Outcome::Spent, None),
        (3, 3, Outcome::Spent, None),
    ];
    for (budget, units, outcome, energies) in cases {
        assert!(rt; budget >= 1);
        assert!(rt; budget <= 10_000_000);
        let answer = flash_tp(rt.alloc(), &params, 1024, budget)?;
        assert_eq!(rt; answer.units, units, "of {budget}");
        assert_eq!(rt; answer.outcome, outcome, "of {budget}");
        if let Some(energies) = energies {
            assert_eq!(rt;
                (answer.u, answer.gap, answer.low, answer.plane.lam[0]),
                energies
            );
        }
        assert!(rt; adds_up(&case, &answer.split));
        let phase = answer.split.phases[0];
        let parts = phase.parts;
        assert_eq!(rt; parts, [1, 0, 0, 0]);
        assert_eq!(rt; answer.split.sum, 1);
        assert!(rt; phase.packing >= 1);
        assert!(rt; phase.packing < 1 << 40);
        let changed = with_two_parts(phase.packing);
        assert!(rt; !adds_up(&case, &changed));
    }
    Ok(())
}

/// Equal parts of methane and decane, at 300 K and 50 bar.
fn methane_and_decane() -> Case {
    let methane = Row {
        name: NAMELESS,
        tc: 190_564,
        pc: 4_599_200,
        w: 114,
    };
    let decane = Row {
        name: NAMELESS,
        tc: 617_700,
        pc: 2_110_000,
        w: 4_923,
    };
    equal_parts(
        2,
        [methane, decane, decane, decane],
        [[0, 422, 0, 0], [422, 0, 0, 0], [0; SLOTS], [0; SLOTS]],
        300_000,
        5_000_000,
    )
}

/// What a flash answers, or none out of the range of the tolerances and budgets.
fn flashed_by<F: Flash>(
    flash: &mut F,
    case: &Case,
    tol: u32,
    budget: u32,
) -> Option<Result<Answer, FlashFault>> {
    if tol < 128 || tol > 1_048_576 || budget < 1 || budget > 10_000_000 {
        return None;
    }
    Some(flash.flash(case, tol, budget))
}

/// What the answer says beside its list of work.
fn summary_of(answer: &Answer) -> Summary {
    let phases = &answer.split.phases;
    Summary {
        outcome: answer.outcome,
        units: answer.units,
        u: answer.u,
        gap: answer.gap,
        low: answer.low,
        plane: answer.plane.lam,
        sum: answer.split.sum,
        phases: phases.len(),
        last: phases[phases.len() - 1],
    }
}

#[test]
fn flashes_mixtures(rt: HostRuntime) -> Result<(), Fail> {
    let mut flash = PrFlash { alloc: rt.alloc() };
    let cases = [
        like_components(2),
        like_components(4),
        ethane_to_benzene(2),
        ethane_to_benzene(3),
        ethane_to_benzene(4),
        methane_and_decane(),
    ];
    for (case, (tol, budget, wanted)) in cases.iter().zip(&WANTED) {
        let flashed = flashed_by(&mut flash, case, *tol, *budget).ok_or("out of range")?;
        let answer = flashed.ok().ok_or("no answer")?;
        assert_eq!(rt; summary_of(&answer), *wanted);
        assert!(rt; adds_up(case, &answer.split));
    }
    Ok(())
}

#[test]
fn refuses_parameters(rt: HostRuntime) -> Result<(), Fail> {
    let mut flash = PrFlash { alloc: rt.alloc() };
    let mut hot = methane_to_nitrogen(4);
    hot.t = 1_500_000;
    match flashed_by(&mut flash, &hot, 1024, 3).ok_or("out of range")? {
        Err(FlashFault::Param(fault)) => assert_eq!(rt; fault, ParamFault::MRange(4)),
        _ => return Err("not refused")?,
    }
    Ok(())
}

#[test]
fn keeps_what_was_pushed(rt: HostRuntime) -> Result<(), Fail> {
    let mut letters = Letters::new(rt.alloc());
    letters.reserve(2)?;
    assert!(rt; letters.is_empty());
    letters.push(b'y');
    letters.push(b'p');
    assert_eq!(rt; letters.len(), 2);
    assert_eq!(rt; (*letters.get(0), *letters.get(1)), (b'y', b'p'));
    Ok(())
}
