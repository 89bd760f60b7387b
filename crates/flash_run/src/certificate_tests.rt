//! Whole runs that write certificates, as an independent program writes them, and that judge them.

ghost use Rattle.std.specs.Prelude.{◌<◌};

use crate::tests::{GASES, run_in_pieces};
use std::alloc::{AllocError, Global};
use std::process::Abort;
use std::test::Fail;

const TABLE: &str = "comp,methane,190.564,4599200,0.0114,\n";

const WORDS: &str = "cert T=150 P=10000 z=1 names=methane tol=1024 budget=20000";

/// The certificate of methane at 150 K and 10000 Pa before its low, then its numbers before the letters, its letters and its end.
const BEFORE_LOW: &str =
    "prflash-cert 2\nT 150000\nP 10000\nn 1\nkappa 76\nc methane 190564 4599200 114 1\n\
    two 1630477228166597776 1630477228166597777\ne 1586259924992 1586260020565\n\
    t 1 249726707501365 249726707501366\nsplit 1 1\nf 236654334 1\nU 1583824234056\nplane 1583824234496\n";

const NUMBERS: &str = "low -523003172\ngap 523002732\ntree 27\n";

const LETTERS: &str = "yyyyyyyyyyyyypppppppppppppp\n";

const ACCEPTED: &str = "accepted U=1583824234056 gap=523002732\n";

/// The parts of a certificate, one behind the other.
fn joined(alloc: Global, numbers: &str, letters: &str, end: &str) -> Result<Vec<u8>, AllocError> {
    let mut text = Vec::new(alloc);
    text.extend_from_slice(BEFORE_LOW.as_bytes())?;
    text.extend_from_slice(numbers.as_bytes())?;
    text.extend_from_slice(letters.as_bytes())?;
    text.extend_from_slice(end.as_bytes())?;
    Ok(text)
}

#[test]
fn writes_certificates(rt: HostRuntime) -> Result<(), Fail> {
    let alloc = rt.alloc();
    // A closed answer, in any order of its words, and one whose budget was spent.
    let cases: [(&str, u8, &str, &str); 3] = [
        (WORDS, 0, NUMBERS, LETTERS),
        (
            "cert budget=20000 kappa=76 tol=1024 names=methane z=1 P=10000 T=0150.0",
            0,
            NUMBERS,
            LETTERS,
        ),
        (
            "cert T=150 P=10000 z=1 names=methane tol=1024 budget=1",
            5,
            "low -4672054794064\ngap 4672054793624\ntree 3\n",
            "ypp\n",
        ),
    ];
    for (words, want, numbers, letters) in cases {
        let table = TABLE.as_bytes().to_vec(alloc)?;
        let (status, sink) = run_in_pieces(alloc, words, table, 4096, &[], &[])?;
        assert_eq!(rt; status, want, "{words}");
        let text = joined(alloc, numbers, letters, "end\n")?;
        assert_eq!(rt; sink.held(), text.as_slice(), "{words}");
    }
    Ok(())
}

#[test]
fn accepts_what_is_written(rt: HostRuntime) -> Result<(), Fail> {
    let alloc = rt.alloc();
    // Open answers of two components, by both editions.
    let cases = [
        "cert T=300 P=5000000 z=1,1 names=methane,decane tol=262144 budget=1",
        "cert T=300 P=5000000 z=1,1 names=methane,decane tol=262144 budget=3 kappa=78",
    ];
    for words in cases {
        let table = GASES.as_bytes().to_vec(alloc)?;
        let (status, sink) = run_in_pieces(alloc, words, table, 4096, &[], &[])?;
        assert_eq!(rt; status, 5, "{words}");
        let text = sink.held().to_vec(alloc)?;
        let (status, sink) = run_in_pieces(alloc, "check", text, 4096, &[], &[])?;
        assert_eq!(rt; status, 0, "{words}");
        assert!(rt; sink.held().starts_with(b"accepted U="), "{words}");
    }
    Ok(())
}

/// Numbers, letters and the end of a certificate, its status and its verdict.
const JUDGED: [(&str, &str, &str, u8, &str); 13] = [
    (NUMBERS, LETTERS, "end\n", 0, ACCEPTED),
    (
        "low -4672054794064\ngap 4672054793624\ntree 3\n",
        "ypp\n",
        "end\n",
        0,
        "accepted U=1583824234056 gap=4672054793624\n",
    ),
    // Fewer leaves, and a larger gap than there is.
    (
        "low -4672054794065\ngap 4672054793625\ntree 1\n",
        "p\n",
        "end\n",
        9,
        "refused certificate BadLeaf 1\n",
    ),
    (
        "low -523003172\ngap 523002733\ntree 27\n",
        LETTERS,
        "end\n",
        9,
        "refused certificate BadGap\n",
    ),
    (
        "low -523003171\ngap 523002731\ntree 27\n",
        LETTERS,
        "end\n",
        9,
        "refused certificate BadLeaf 2\n",
    ),
    (
        NUMBERS,
        "yyyyyyyyyyyyyppppppppppppp\n",
        "end\n",
        9,
        "refused certificate Tree 27\n",
    ),
    (
        NUMBERS,
        "yyyyyyyyyyyyymppppppppppppp\n",
        "end\n",
        9,
        "refused certificate BadLeaf 1\n",
    ),
    (
        NUMBERS,
        "yyyyyyyyyyyyyxpppppppppppp\n",
        "end\n",
        9,
        "refused certificate Tree 14\n",
    ),
    (
        "low -523003172\ngap 523002732\ntree 0\n",
        LETTERS,
        "end\n",
        9,
        "refused certificate Line 16\n",
    ),
    (
        NUMBERS,
        LETTERS,
        "End\n",
        9,
        "refused certificate Line 18\n",
    ),
    (NUMBERS, LETTERS, "end", 9, "refused certificate Cut\n"),
    (NUMBERS, LETTERS, "", 9, "refused certificate Cut\n"),
    (
        NUMBERS,
        LETTERS,
        "end\n\n",
        9,
        "refused certificate Extra 1\n",
    ),
];

#[test]
fn judges_certificates(rt: HostRuntime) -> Result<(), Fail> {
    let alloc = rt.alloc();
    for (numbers, letters, end, want, verdict) in JUDGED {
        for piece in [1, 7, 4096] {
            let text = joined(alloc, numbers, letters, end)?;
            let (status, sink) = run_in_pieces(alloc, "check", text, piece, &[], &[])?;
            assert_eq!(rt; status, want, "{verdict}");
            assert_eq!(rt; sink.held(), verdict.as_bytes(), "{verdict}");
        }
    }
    Ok(())
}

/// Words, the input, the status and the refusal of their run.
const REFUSED: [(&str, &str, u8, &str); 13] = [
    ("cert", "", 2, "refused words Missing T\n"),
    ("cert X=1", "", 2, "refused words Unknown 2\n"),
    (
        "cert T=300 P=1000000 z=1 names=a tol=1024",
        "",
        2,
        "refused words Missing budget\n",
    ),
    ("check x=1", "", 2, "refused words Unknown 2\n"),
    ("check T=300 T=300", "", 2, "refused words Unknown 2\n"),
    (WORDS, "", 3, "refused table Fields 1\n"),
    (
        "cert T=150 P=10000 z=1,1 names=methane,z tol=1024 budget=10",
        TABLE,
        4,
        "refused case NoName 2\n",
    ),
    (
        "cert T=1200 P=1000000 z=1 names=a tol=1024 budget=10",
        "comp,a,300,1000000,1.5,\n",
        4,
        "refused case MRange 1\n",
    ),
    ("check", "", 9, "refused certificate Cut\n"),
    ("check", TABLE, 9, "refused certificate Head\n"),
    ("check", "prflash-cert 9\n", 9, "refused certificate Head\n"),
    (
        "check",
        "prflash-cert 2\nT 0\n",
        9,
        "refused certificate Line 2\n",
    ),
    (
        "check",
        "prflash-cert 2\nT 0",
        9,
        "refused certificate Cut\n",
    ),
];

#[test]
fn refuses_certificates_with_name_and_place(rt: HostRuntime) -> Result<(), Fail> {
    let alloc = rt.alloc();
    for (words, input, want, text) in REFUSED {
        let input = input.as_bytes().to_vec(alloc)?;
        let (status, sink) = run_in_pieces(alloc, words, input, 10, &[], &[])?;
        assert_eq!(rt; status, want, "{words}");
        assert_eq!(rt; sink.held(), text.as_bytes(), "{words}");
    }
    Ok(())
}

#[test]
fn ends_a_check_with_status_and_text(rt: HostRuntime) -> Result<(), Fail> {
    let alloc = rt.alloc();
    // Each text is cut where the sink fails, in pieces of 10 bytes. A certificate is read no further than its first fault.
    let cases: [(&str, &str, &[u64], &[u64], u8, &str); 9] = [
        ("check x=1", "", &[1], &[], 2, "refused words Unknown 2\n"),
        ("check", "", &[1], &[], 6, "refused read\n"),
        ("check", "", &[1], &[1], 7, ""),
        ("check", "", &[], &[1], 7, ""),
        ("check", "", &[], &[3], 7, "refused certificate "),
        ("check", "\n", &[2], &[], 9, "refused certificate Head\n"),
        ("check", "a", &[2], &[], 6, "refused read\n"),
        (WORDS, TABLE, &[2], &[], 6, "refused read\n"),
        (WORDS, TABLE, &[], &[2], 7, "prflash-ce"),
    ];
    for (words, input, source_fails, sink_fails, want, text) in cases {
        let input = input.as_bytes().to_vec(alloc)?;
        let (status, sink) = run_in_pieces(alloc, words, input, 10, source_fails, sink_fails)?;
        assert_eq!(rt; status, want, "{words}");
        assert_eq!(rt; sink.held(), text.as_bytes(), "{words}");
    }
    Ok(())
}

#[test]
fn refuses_long_certificates(rt: HostRuntime) -> Result<(), Fail> {
    let alloc = rt.alloc();
    // A line without an end is cut at the limit, and with one byte more too long.
    let cases: [(usize, u8, &str); 2] = [
        (67_108_864, 9, "refused certificate Cut\n"),
        (67_108_865, 11, "refused long\n"),
    ];
    for (length, want, text) in cases {
        let input = vec![in alloc; b'a'; length]?;
        let (status, sink) = run_in_pieces(alloc, "check", input, 4096, &[], &[])?;
        assert_eq!(rt; status, want);
        assert_eq!(rt; sink.held(), text.as_bytes());
    }
    Ok(())
}

/// Has each call of a run fail in turn, in pieces of 7 bytes; the source is called so often.
fn fail_each_call(
    rt: &impl Abort,
    alloc: Global,
    words: &str,
    input: &[u8],
    calls: u64,
) -> Result<(), Fail> {
    let (status, whole) = run_in_pieces(alloc, words, input.to_vec(alloc)?, 7, &[], &[])?;
    assert_eq!(rt; status, 0);
    for call in 1..=1000u64 {
        if call > calls {
            break;
        }
        let (status, sink) = run_in_pieces(alloc, words, input.to_vec(alloc)?, 7, &[call], &[])?;
        assert_eq!(rt; status, 6);
        assert_eq!(rt; sink.held(), b"refused read\n".as_slice());
    }
    let mut before = 0;
    for call in 1..=1000u64 {
        if before >= whole.held().len() {
            break;
        }
        let (status, sink) = run_in_pieces(alloc, words, input.to_vec(alloc)?, 7, &[], &[call])?;
        assert_eq!(rt; status, 7);
        assert_eq!(rt; sink.held(), &whole.held()[..before]);
        before += 7;
    }
    Ok(())
}

#[test]
fn fails_at_each_call_of_cert(rt: HostRuntime) -> Result<(), Fail> {
    fail_each_call(&rt, rt.alloc(), WORDS, TABLE.as_bytes(), 7)
}

#[test]
fn fails_at_each_call_of_check(rt: HostRuntime) -> Result<(), Fail> {
    let text = joined(rt.alloc(), NUMBERS, LETTERS, "end\n")?;
    fail_each_call(&rt, rt.alloc(), "check", &text, 46)
}
