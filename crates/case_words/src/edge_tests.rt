//! The further words of searches for phase boundaries, and their jobs, worked by hand.

use super::*;
use crate::tests::words_of;
use case_types::Edition;
use dec_text::DecFault;
use std::alloc::{AllocError, Global};
use std::test::Fail;

/// The job of a search with these further words, or their first fault.
fn job_of(
    alloc: Global,
    by: By,
    side: Side,
    line: &str,
) -> Result<Result<Job, WordFault>, AllocError> {
    Ok(read_further(Command::Edge(by, side), words_of(alloc, line)?.as_slice()))
}

/// The quantity that is searched over, further words, and their first fault.
const REFUSED: [(By, &str, WordFault); 61] = [
    (By::Pressure, "", WordFault::Missing(Key::T)),
    (By::Temperature, "", WordFault::Missing(Key::P)),
    (By::Pressure, "T=300", WordFault::Missing(Key::Lo)),
    (By::Pressure, "T=300 lo=1000", WordFault::Missing(Key::Hi)),
    (
        By::Pressure,
        "T=300 lo=1000 hi=2000",
        WordFault::Missing(Key::Width),
    ),
    (
        By::Pressure,
        "T=300 lo=1000 hi=2000 width=1",
        WordFault::Missing(Key::Z),
    ),
    (
        By::Pressure,
        "T=300 lo=1000 hi=2000 width=1 z=1",
        WordFault::Missing(Key::Names),
    ),
    (
        By::Pressure,
        "T=300 lo=1000 hi=2000 width=1 z=1 names=a",
        WordFault::Missing(Key::Tol),
    ),
    (
        By::Pressure,
        "T=300 lo=1000 hi=2000 width=1 z=1 names=a tol=128",
        WordFault::Missing(Key::Budget),
    ),
    (
        By::Pressure,
        "budget=1 tol=128 names=a z=1 width=1 hi=2000 lo=1000",
        WordFault::Missing(Key::T),
    ),
    (
        By::Temperature,
        "budget=1 tol=128 names=a z=1 width=1 hi=301 lo=300",
        WordFault::Missing(Key::P),
    ),
    (
        By::Temperature,
        "P=1000 hi=300",
        WordFault::Missing(Key::Lo),
    ),
    (
        By::Temperature,
        "P=1000 lo=300 width=1",
        WordFault::Missing(Key::Hi),
    ),
    (By::Pressure, "P=1000", WordFault::Unknown(2)),
    (By::Temperature, "T=300", WordFault::Unknown(2)),
    (By::Pressure, "H=1", WordFault::Unknown(2)),
    (By::Pressure, "Lo=1000", WordFault::Unknown(2)),
    (By::Pressure, "lo", WordFault::Unknown(2)),
    (By::Pressure, "lo=", WordFault::Value(2, DecFault::Empty)),
    (By::Pressure, "lo=x", WordFault::Value(2, DecFault::Digit)),
    (By::Pressure, "hi=+1", WordFault::Value(2, DecFault::Sign)),
    (By::Pressure, "hi=-1", WordFault::Value(2, DecFault::Sign)),
    (
        By::Pressure,
        "hi=1000000000000001",
        WordFault::Value(2, DecFault::TooLarge),
    ),
    (By::Pressure, "hi=1000000000000000", WordFault::Range(2)),
    (
        By::Pressure,
        "lo=1000.5",
        WordFault::Value(2, DecFault::Places),
    ),
    (By::Pressure, "lo=999", WordFault::Range(2)),
    (By::Pressure, "lo=100000001", WordFault::Range(2)),
    (By::Pressure, "hi=999", WordFault::Range(2)),
    (By::Pressure, "hi=100000001", WordFault::Range(2)),
    (By::Temperature, "lo=49.999", WordFault::Range(2)),
    (By::Temperature, "hi=1500.001", WordFault::Range(2)),
    (
        By::Temperature,
        "lo=300.0005",
        WordFault::Value(2, DecFault::Places),
    ),
    (
        By::Temperature,
        "hi=1000000000000.001",
        WordFault::Value(2, DecFault::TooLarge),
    ),
    (By::Pressure, "lo=2000 hi=2000", WordFault::Range(3)),
    (By::Pressure, "hi=2000 lo=2000", WordFault::Range(3)),
    (By::Pressure, "lo=2000 T=300 hi=1999", WordFault::Range(4)),
    (By::Pressure, "hi=2000 T=300 lo=2001", WordFault::Range(4)),
    (By::Pressure, "lo=2000 hi=999", WordFault::Range(3)),
    (By::Pressure, "lo=2000 hi=1000 X=1", WordFault::Range(3)),
    (By::Temperature, "lo=300 hi=300.000", WordFault::Range(3)),
    (By::Temperature, "hi=300 lo=300.001", WordFault::Range(3)),
    (By::Pressure, "lo=1000 lo=x", WordFault::Twice(3)),
    (By::Pressure, "hi=2000 lo=1000 hi=3000", WordFault::Twice(4)),
    (By::Pressure, "width=1 width=1", WordFault::Twice(3)),
    (By::Pressure, "width=", WordFault::Value(2, DecFault::Empty)),
    (By::Pressure, "width=0", WordFault::Range(2)),
    (By::Pressure, "width=4294967296", WordFault::Range(2)),
    (
        By::Pressure,
        "width=1.5",
        WordFault::Value(2, DecFault::Places),
    ),
    (
        By::Pressure,
        "width=-1",
        WordFault::Value(2, DecFault::Sign),
    ),
    (By::Temperature, "width=0", WordFault::Range(2)),
    (
        By::Temperature,
        "width=0.0001",
        WordFault::Value(2, DecFault::Places),
    ),
    (By::Temperature, "width=4294967.296", WordFault::Range(2)),
    (
        By::Temperature,
        "width=1000000000000.001",
        WordFault::Value(2, DecFault::TooLarge),
    ),
    (By::Pressure, "z=1,1 lo=1000 names=a", WordFault::Count(4)),
    (By::Temperature, "names=a,a P=1000", WordFault::Twice(2)),
    (By::Pressure, "kappa=77", WordFault::Range(2)),
    (
        By::Temperature,
        "kappa=x",
        WordFault::Value(2, DecFault::Digit),
    ),
    (By::Temperature, "kappa=76 kappa=78", WordFault::Twice(3)),
    (
        By::Pressure,
        "T=300 lo=1000 hi=2000 width=1 z=1 names=a tol=128 budget=1 kappa=75",
        WordFault::Range(10),
    ),
    (
        By::Pressure,
        "T=300 lo=1000 hi=2000 width=1 z=1 names=a tol=128 budget=1 hi=3000",
        WordFault::Twice(10),
    ),
    (
        By::Pressure,
        "T=300 lo=1000 hi=2000 width=1 z=1 names=a tol=128 budget=0",
        WordFault::Range(9),
    ),
];

#[test]
fn refuses_the_first_fault(rt: HostRuntime) -> Result<(), Fail> {
    for (by, line, want) in REFUSED {
        let fault = job_of(rt.alloc(), by, Side::Bubble, line)?.err();
        assert_eq!(rt; fault, Some(want), "{line}");
    }
    Ok(())
}

/// A search, its further words, the ends and the width that they give, and the other quantity.
const READ: [(Command, &str, [u32; 4], Edition); 6] = [
    (
        Command::Edge(By::Pressure, Side::Bubble),
        "T=300.5 lo=1000 hi=100000000 width=4294967295 z=1,0 names=a,b tol=128 budget=1",
        [1_000, 100_000_000, 4_294_967_295, 300_500],
        Edition::Y1976,
    ),
    (
        Command::Edge(By::Pressure, Side::Dew),
        "budget=1 kappa=78 tol=128 names=a,b z=1,0 width=1 hi=2000 lo=1999 T=50",
        [1_999, 2_000, 1, 50_000],
        Edition::Y1978,
    ),
    (
        Command::Edge(By::Pressure, Side::Dew),
        "lo=01000.0 hi=2000 T=300 width=1 z=1,0 names=a,b tol=128 budget=1 kappa=76",
        [1_000, 2_000, 1, 300_000],
        Edition::Y1976,
    ),
    (
        Command::Edge(By::Temperature, Side::Bubble),
        "P=100000 lo=50 hi=1500 width=0.001 z=1,0 names=a,b tol=128 budget=1",
        [50_000, 1_500_000, 1, 100_000],
        Edition::Y1976,
    ),
    (
        Command::Edge(By::Temperature, Side::Dew),
        "hi=300.002 lo=300.001 width=4294967.295 z=1,0 names=a,b tol=128 budget=1 P=1000",
        [300_001, 300_002, 4_294_967_295, 1_000],
        Edition::Y1976,
    ),
    (
        Command::Edge(By::Temperature, Side::Dew),
        "kappa=78 lo=300 z=1,0 names=a,b hi=301 width=1 tol=128 P=1000 budget=1",
        [300_000, 301_000, 1_000, 1_000],
        Edition::Y1978,
    ),
];

#[test]
fn reads_ends_and_width(rt: HostRuntime) -> Result<(), Fail> {
    for (command, line, [lo, hi, width, fixed], edition) in READ {
        let words = words_of(rt.alloc(), line)?;
        let Ok(Job::Edge(asked)) = read_further(command, words.as_slice()) else {
            return Err("refused".into());
        };
        let (t, p) = match asked.by {
            By::Pressure => (fixed, lo),
            By::Temperature => (lo, fixed),
        };
        assert_eq!(rt; Command::Edge(asked.by, asked.side), command, "{line}");
        assert_eq!(rt;
            [asked.lo, asked.hi, asked.width],
            [lo, hi, width],
            "{line}"
        );
        assert_eq!(rt; [asked.base.t, asked.base.p], [t, p], "{line}");
        assert_eq!(rt; asked.base.z.as_slice(), [1, 0].as_slice(), "{line}");
        assert_eq!(rt; asked.base.edition, edition, "{line}");
    }
    Ok(())
}

#[test]
fn reads_the_names_of_searches(rt: HostRuntime) -> Result<(), Fail> {
    for (line, key) in [
        ("bubble-p", Key::T),
        ("dew-p lo=1000", Key::T),
        ("bubble-t lo=50", Key::P),
        ("dew-t names=a", Key::P),
    ] {
        let words = words_of(rt.alloc(), line)?;
        assert_eq!(rt;
            read_words(&words).err(),
            Some(WordFault::Missing(key)),
            "{line}"
        );
    }
    Ok(())
}
