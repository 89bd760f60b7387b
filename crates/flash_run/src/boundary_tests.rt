//! Whole runs that search for phase boundaries; the texts are those of an independent program.

ghost use Rattle.std.specs.Prelude.{◌<◌};

use crate::tests::{GASES, run_in_pieces};
use std::test::Fail;

const HOT: &str = "comp,a,1500,1000000,0,\n";

/// Words, a table, the status and the text of their run.
const SEARCHED: [(&str, &str, u8, &str); 12] = [
    (
        "bubble-p T=300 lo=1000000 hi=90000000 width=10000000 z=1,1 names=methane,decane tol=262144 budget=200000",
        GASES,
        0,
        "bracket P 6562500 12125000\nends divided liquid\ngaps 137352493023 136834126529\n",
    ),
    (
        "dew-p T=300 lo=100000 hi=5000000 width=200000 z=1,1 names=methane,propane tol=262144 budget=200000",
        GASES,
        0,
        "bracket P 2550000 2703125\nends vapour divided\ngaps 139145466410 137006984506\n",
    ),
    (
        "dew-t kappa=78 budget=200000 tol=262144 names=methane,decane z=1,1 width=10 hi=700 lo=300 P=5000000",
        GASES,
        0,
        "bracket T 575.000 581.250\nends divided vapour\ngaps 137060530506 137726325197\n",
    ),
    // Both ends divided, and none.
    (
        "bubble-p T=300 lo=1000000 hi=2000000 width=10000000 z=1,1 names=methane,decane tol=262144 budget=200000",
        GASES,
        10,
        "no-edge P 1000000 2000000\nends divided divided\ngaps 133614635042 132997090346\n",
    ),
    (
        "bubble-p T=150 lo=100000 hi=5000000 width=100000 z=1 names=methane tol=1024 budget=200000",
        GASES,
        10,
        "no-edge P 100000 5000000\nends vapour liquid\ngaps 451793487 488468889\n",
    ),
    (
        "bubble-t P=1000000 lo=140 hi=160 width=1 z=1,0 names=methane,decane tol=1024 budget=20000",
        GASES,
        10,
        "no-edge T 140.000 160.000\nends liquid vapour\ngaps 534981720 385185347\n",
    ),
    // The budget is spent at the lower end, and at the upper one.
    (
        "bubble-p T=150 lo=100000 hi=5000000 width=100000 z=1 names=methane tol=1024 budget=20",
        GASES,
        5,
        "open spent at=100000 units=20\n",
    ),
    (
        "dew-p T=150 lo=10000 hi=5000000 width=100000 z=1 names=methane tol=1024 budget=24",
        GASES,
        5,
        "open spent at=5000000 units=24\n",
    ),
    // The case, and its parameters at a place.
    (
        "dew-p T=300 lo=1000 hi=5000000 width=200000 z=1,1 names=x,propane tol=262144 budget=200000",
        GASES,
        4,
        "refused case NoName 1\n",
    ),
    (
        "dew-t P=100000 lo=50 hi=100 width=1 z=1 names=a tol=1024 budget=1000",
        HOT,
        4,
        "refused case ARange 1 1 at=50.000\n",
    ),
    (
        "dew-t P=100000 lo=300 hi=1200 width=1 z=1 names=a tol=1048576 budget=10000",
        "comp,a,300,1000000,1.5,\n",
        4,
        "refused case MRange 1 at=1200.000\n",
    ),
    ("bubble-p T=300 lo=5 hi=6", "", 2, "refused words Range 3\n"),
];

#[test]
fn searches_for_phase_boundaries(rt: HostRuntime) -> Result<(), Fail> {
    let alloc = rt.alloc();
    for (words, table, want, text) in SEARCHED {
        let table = table.as_bytes().to_vec(alloc)?;
        let (status, sink) = run_in_pieces(alloc, words, table, 4096, &[], &[])?;
        assert_eq!(rt; status, want, "{words}");
        assert_eq!(rt; sink.held(), text.as_bytes(), "{words}");
    }
    Ok(())
}

#[test]
fn ends_a_search_with_status_and_text(rt: HostRuntime) -> Result<(), Fail> {
    let alloc = rt.alloc();
    let words = "dew-t P=100000 lo=50 hi=100 width=1 z=1 names=a tol=1024 budget=1000";
    // The text is cut where the sink fails, in pieces of 10 bytes.
    let cases: [(&[u64], &[u64], u8, &str); 3] = [
        (&[2], &[], 6, "refused read\n"),
        (&[], &[2], 7, "refused ca"),
        (&[], &[], 4, "refused case ARange 1 1 at=50.000\n"),
    ];
    for (source_fails, sink_fails, want, text) in cases {
        let table = HOT.as_bytes().to_vec(alloc)?;
        let (status, sink) = run_in_pieces(alloc, words, table, 10, source_fails, sink_fails)?;
        assert_eq!(rt; status, want, "{words}");
        assert_eq!(rt; sink.held(), text.as_bytes(), "{words}");
    }
    Ok(())
}
