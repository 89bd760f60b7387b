//! Energies of splits, worked out by hand from energies of phases that an independent program computed.

use super::*;
use arrayvec::ArrayVec;
use case_types::{Phase, SLOTS, Split, adds_up};
use pr_params::params;
use sample_cases::ethane_to_benzene;
use std::test::Fail;

/// One part of a component at a packing, and two parts at another.
fn by_thirds() -> Split {
    let mut phases: ArrayVec<Phase, SLOTS> = ArrayVec::new();
    phases.push(Phase {
        parts: [1, 0, 0, 0],
        packing: 17_179_869_184,
    });
    phases.push(Phase {
        parts: [2, 0, 0, 0],
        packing: 481_036_337_152,
    });
    Split { sum: 3, phases }
}

/// Half the feed in a phase of the first component, and a sixth and a third in phases of the second.
fn by_sixths() -> Split {
    let mut phases: ArrayVec<Phase, SLOTS> = ArrayVec::new();
    phases.push(Phase {
        parts: [3, 0, 0, 0],
        packing: 1_099_511_627_775,
    });
    phases.push(Phase {
        parts: [0, 1, 0, 0],
        packing: 549_755_813_888,
    });
    phases.push(Phase {
        parts: [0, 2, 0, 0],
        packing: 549_755_813_888,
    });
    Split { sum: 6, phases }
}

/// A third of 3_548_897_761_806 and two thirds of 1_928_931_583_171; half of 43_950_028_694_900, and a sixth and a third of
/// -650_093_362_262; each rounded up.
#[test]
fn energies_of_splits(rt: HostRuntime) -> Result<(), Fail> {
    for (n, split, energy) in [
        (1, by_thirds(), 2_468_920_309_384),
        (2, by_sixths(), 21_649_967_666_320),
    ] {
        assert!(rt; n >= 1);
        assert!(rt; n <= 2);
        let params = params(&ethane_to_benzene(n)).ok().ok_or("no parameters")?;
        assert!(rt; adds_up(&params.case, &split));
        assert_eq!(rt; split_energy(&params, &split), energy, "of {n}");
    }
    Ok(())
}
