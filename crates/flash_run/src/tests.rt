//! Whole runs: rows worked by hand, and runs whose ends fail.

ghost use Rattle.std.specs.Prelude.{◌<◌};

use super::*;
use io_edge::{MemSink, MemSource};
use std::alloc::{AllocError, Global};
use std::test::Fail;

const WORDS: &str = "tp T=300 P=1000000 z=1 names=a tol=1024 budget=200000";

const TABLE: &str = "comp,a,300,1000000,0,\n";

pub const GASES: &str = "comp,methane,190.564,4599200,0.0114,\n\
    comp,propane,369.83,4248000,0.1523,\n\
    comp,decane,617.7,2110000,0.4923,\n\
    cp,methane,19.25,52.13,11.97,-11.32\n";

/// The words of a text, with a blank between each two.
fn words_of(alloc: Global, text: &str) -> Result<Vec<Word>, AllocError> {
    let mut words = Vec::new(alloc);
    for part in text.as_bytes().split(|b| *b == b' ') {
        if !part.is_empty() {
            words.push(Word::new(part.to_vec(alloc)?))?;
        }
    }
    Ok(words)
}

/// The status of a run whose source and sink move at most `piece` bytes at once, and the sink after it.
pub fn run_in_pieces(
    alloc: Global,
    text: &str,
    table: Vec<u8>,
    piece: usize,
    source_fails: &[u64],
    sink_fails: &[u64],
) -> Result<(u8, MemSink), AllocError>
    requires { 0 < piece }
{
    let words = words_of(alloc, text)?;
    let mut source = MemSource::new(table, piece, source_fails.to_vec(alloc)?);
    let mut sink = MemSink::new(alloc, 4096, piece, sink_fails.to_vec(alloc)?)?;
    let RunEnd { status, end: _ } = run(alloc, &words, &mut source, &mut sink);
    Ok((status, sink))
}

/// Words, a table, the status and the report of their run.
const REFUSED: [(&str, &str, u8, &str); 33] = [
    // Words.
    ("", "", 2, "refused words NoCommand\n"),
    ("pt T=300", "", 2, "refused words NoCommand\n"),
    ("--help", "", 2, "refused words NoCommand\n"),
    ("tp T=300 T=300", "", 2, "refused words Twice 3\n"),
    ("tp T=49.999", "", 2, "refused words Range 2\n"),
    ("tp T=5x", "", 2, "refused words Value 2 Digit\n"),
    ("tp T=+300", "", 2, "refused words Value 2 Sign\n"),
    ("tp P=1.5", "", 2, "refused words Value 2 Places\n"),
    ("tp names=", "", 2, "refused words Value 2 Empty\n"),
    (
        "tp tol=9999999999999999",
        "",
        2,
        "refused words Value 2 TooLarge\n",
    ),
    ("tp X=1", "", 2, "refused words Unknown 2\n"),
    ("tp z=1,1 names=a", "", 2, "refused words Count 3\n"),
    (
        "tp T=300 P=1000000 z=1 names=a tol=1024",
        "",
        2,
        "refused words Missing budget\n",
    ),
    (
        "tp T=300 P=1000000 z=1 names=a tol=1024 budget=10 kappa=77",
        "",
        2,
        "refused words Range 8\n",
    ),
    (
        "tp T=300 P=1000000 z=1 names=a tol=1024 budget=10 kappa=x",
        "",
        2,
        "refused words Value 8 Digit\n",
    ),
    ("tp", "", 2, "refused words Missing T\n"),
    // Tables.
    (WORDS, "", 3, "refused table Fields 1\n"),
    (
        WORDS,
        "comp,a,300,1000000,0.01142,\n",
        3,
        "refused table Number 1 5 Places\n",
    ),
    (WORDS, "comp,a,300,0,0,\n", 3, "refused table Range 1 4\n"),
    (
        WORDS,
        "comp,a,300,1000000,0,\ncomp,a,300,1000000,0,\n",
        3,
        "refused table Twice 2\n",
    ),
    (
        WORDS,
        "comp,a,300,1000000,0,\nk,a,b,0.1,,\n",
        3,
        "refused table UnknownName 2\n",
    ),
    (WORDS, "mix,a,1,1,1,\n", 3, "refused table Kind 1\n"),
    // Names.
    (
        "tp T=300 P=1000000 z=1,1 names=a,z tol=1024 budget=10",
        TABLE,
        4,
        "refused case NoName 2\n",
    ),
    (
        "tp T=300 P=1000000 z=1,0 names=a,z tol=1024 budget=10",
        TABLE,
        4,
        "refused case NoName 2\n",
    ),
    // Ranges of the parameters.
    (
        "tp T=1200 P=1000000 z=1 names=a tol=1024 budget=10",
        "comp,a,300,1000000,1.5,\n",
        4,
        "refused case MRange 1\n",
    ),
    (
        "tp T=300 P=100000000 z=1 names=a tol=1024 budget=10",
        "comp,a,300,100000,0,\n",
        4,
        "refused case BRange\n",
    ),
    (
        "tp T=50 P=100000 z=1 names=a tol=1024 budget=10",
        "comp,a,1500,1000000,0,\n",
        4,
        "refused case ARange 1 1\n",
    ),
    (
        "tp T=50 P=100000 z=0,1 names=b,a tol=1024 budget=10",
        "comp,a,1500,1000000,0,\ncomp,b,300,1000000,0,\n",
        4,
        "refused case ARange 1 1\n",
    ),
    (
        "tp T=300 P=100000 z=1,1 names=a,b tol=1024 budget=10",
        "comp,a,300,100000,0,\ncomp,b,5,50000000,0,\n",
        4,
        "refused case BRatio\n",
    ),
    (
        "tp T=1500 P=1000000 z=1,1 names=a,b tol=1024 budget=10",
        "comp,a,300,1000000,0,\ncomp,b,300,1000000,1.5,\n",
        4,
        "refused case MRange 2\n",
    ),
    // The first of several faults.
    ("tp T=5x P=0", "mix\n", 2, "refused words Value 2 Digit\n"),
    (
        "tp T=300 P=1000000 z=1 names=z tol=1024 budget=10",
        "mix\n",
        3,
        "refused table Fields 1\n",
    ),
    (
        "tp T=1200 P=1000000 z=1,1 names=a,z tol=1024 budget=10",
        "comp,a,300,1000000,1.5,\n",
        4,
        "refused case NoName 2\n",
    ),
];

#[test]
fn refuses_with_name_and_place(rt: HostRuntime) -> Result<(), Fail> {
    let alloc = rt.alloc();
    for (words, table, want, text) in REFUSED {
        let table = table.as_bytes().to_vec(alloc)?;
        let (status, sink) = run_in_pieces(alloc, words, table, 10, &[], &[])?;
        assert_eq!(rt; status, want, "{words}");
        assert_eq!(rt; sink.held(), text.as_bytes(), "{words}");
    }
    Ok(())
}

#[test]
fn flashes_words_in_any_order_and_spelling(rt: HostRuntime) -> Result<(), Fail> {
    let alloc = rt.alloc();
    // The same case in other words and in other tables.
    let cases: [(&str, &str); 5] = [
        (
            "tp budget=200000 tol=1024 names=a z=1 P=1000000 T=300",
            TABLE,
        ),
        (
            "tp T=0300.000 P=1000000.0 z=1 names=a tol=01024 budget=200000",
            TABLE,
        ),
        (WORDS, "comp,a,300.000,1000000,0.0000,"),
        (WORDS, "\"comp\",\"a\",300,1000000,-0,\"\"\r\n"),
        (
            WORDS,
            "comp,b,400,2000000,0.1,\n\ncomp,a,300,1000000,0,\nk,b,a,0.1,,\n",
        ),
    ];
    let table = TABLE.as_bytes().to_vec(alloc)?;
    let (status, want) = run_in_pieces(alloc, WORDS, table, 4096, &[], &[])?;
    assert_eq!(rt; status, 0);
    for (words, table) in cases {
        let table = table.as_bytes().to_vec(alloc)?;
        let (status, sink) = run_in_pieces(alloc, words, table, 4096, &[], &[])?;
        assert_eq!(rt; status, 0, "{words}");
        assert_eq!(rt; sink.held(), want.held(), "{words}");
    }
    Ok(())
}

/// The report of methane at 150 K and 10000 Pa before its sum, then before the names of its phase, and after them.
const BEFORE_SUM: &str = "closed units=7\nT=150.000 P=10000 tol=262144\nenergy=1583824234056\n\
    gap=97682683166\ngap-joules-per-mole=76.802\n";

const BEFORE_NAMES: &str = " phases=1\nphase 1 vapour packing=236654334 share=1.000000\n";

const AFTER_NAMES: &str = "plane 1583824234496\nlow=-97682683606\n\
    two 1630477228166597776 1630477228166597777\ne 1586259924992 1586260020565\n\
    t methane 249726707501365 249726707501366\n";

#[test]
fn prints_names_without_a_part(rt: HostRuntime) -> Result<(), Fail> {
    let alloc = rt.alloc();
    // Words, the sum, and the parts of the names.
    let cases: [(&str, &str, &str); 4] = [
        (
            "tp z=1 names=methane T=150 P=10000 tol=262144 budget=500000",
            "sum=1",
            "part methane 1 x=1.000000\n",
        ),
        (
            "tp z=1,0 names=methane,decane T=150 P=10000 tol=262144 budget=500000",
            "sum=1",
            "part methane 1 x=1.000000\npart decane 0 x=0.000000\n",
        ),
        (
            "tp z=0,1 names=decane,methane T=150 P=10000 tol=262144 budget=500000",
            "sum=1",
            "part decane 0 x=0.000000\npart methane 1 x=1.000000\n",
        ),
        (
            "tp z=0,7,0 names=decane,methane,propane T=150 P=10000 tol=262144 budget=500000",
            "sum=7",
            "part decane 0 x=0.000000\npart methane 7 x=1.000000\npart propane 0 x=0.000000\n",
        ),
    ];
    for (words, sum, parts) in cases {
        let table = GASES.as_bytes().to_vec(alloc)?;
        let (status, sink) = run_in_pieces(alloc, words, table, 4096, &[], &[])?;
        assert_eq!(rt; status, 0, "{words}");
        let mut want = Vec::new(alloc);
        want.extend_from_slice(BEFORE_SUM.as_bytes())?;
        want.extend_from_slice(sum.as_bytes())?;
        want.extend_from_slice(BEFORE_NAMES.as_bytes())?;
        want.extend_from_slice(parts.as_bytes())?;
        want.extend_from_slice(AFTER_NAMES.as_bytes())?;
        assert_eq!(rt; sink.held(), want.as_slice(), "{words}");
    }
    Ok(())
}

/// The report of methane at 150 K and 10000 Pa at a finer tolerance, as an independent program prints it.
const DILUTE: &str = "closed units=13\nT=150.000 P=10000 tol=1024\nenergy=1583824234056\n\
    gap=523002732\ngap-joules-per-mole=0.412\nsum=1 phases=1\n\
    phase 1 vapour packing=236654334 share=1.000000\npart methane 1 x=1.000000\n\
    plane 1583824234496\nlow=-523003172\n\
    two 1630477228166597776 1630477228166597777\ne 1586259924992 1586260020565\n\
    t methane 249726707501365 249726707501366\n";

#[test]
fn flashes_dilute_vapour(rt: HostRuntime) -> Result<(), Fail> {
    let alloc = rt.alloc();
    let words = "tp T=150 P=10000 z=1 names=methane tol=1024 budget=20000";
    let table = b"comp,methane,190.564,4599200,0.0114,\n".to_vec(alloc)?;
    let (status, sink) = run_in_pieces(alloc, words, table, 4096, &[], &[])?;
    assert_eq!(rt; status, 0);
    assert_eq!(rt; sink.held(), DILUTE.as_bytes());
    Ok(())
}

#[test]
fn flashes_near_saturation(rt: HostRuntime) -> Result<(), Fail> {
    let alloc = rt.alloc();
    let words = "tp T=150 P=1040000 z=1 names=methane tol=65536 budget=200000";
    let table = GASES.as_bytes().to_vec(alloc)?;
    let (status, sink) = run_in_pieces(alloc, words, table, 4096, &[], &[])?;
    assert_eq!(rt; status, 0);
    assert!(rt; sink.held().starts_with(b"closed units=19\n"));
    Ok(())
}

#[test]
fn ends_with_status_and_text(rt: HostRuntime) -> Result<(), Fail> {
    let alloc = rt.alloc();
    // A run whose words are refused reads nothing, and each text is cut where the sink fails, in pieces of 10 bytes.
    let cases: [(&str, &[u64], &[u64], u8, &str); 6] = [
        ("tp X=1", &[1], &[], 2, "refused words Unknown 2\n"),
        ("tp X=1", &[], &[2], 7, "refused wo"),
        ("tp X=1", &[], &[1], 7, ""),
        (WORDS, &[2], &[], 6, "refused read\n"),
        (WORDS, &[1], &[1], 7, ""),
        (WORDS, &[], &[2], 7, "closed uni"),
    ];
    for (words, source_fails, sink_fails, want, text) in cases {
        let table = TABLE.as_bytes().to_vec(alloc)?;
        let (status, sink) = run_in_pieces(alloc, words, table, 10, source_fails, sink_fails)?;
        assert_eq!(rt; status, want);
        assert_eq!(rt; sink.held(), text.as_bytes());
    }
    Ok(())
}

#[test]
fn fails_at_each_call(rt: HostRuntime) -> Result<(), Fail> {
    let alloc = rt.alloc();
    let table = TABLE.as_bytes().to_vec(alloc)?;
    let (status, whole) = run_in_pieces(alloc, WORDS, table, 7, &[], &[])?;
    assert_eq!(rt; status, 0);
    // The table comes in four pieces, and then it ends.
    for call in 1..=5u64 {
        let table = TABLE.as_bytes().to_vec(alloc)?;
        let (status, sink) = run_in_pieces(alloc, WORDS, table, 7, &[call], &[])?;
        assert_eq!(rt; status, 6);
        assert_eq!(rt; sink.held(), b"refused read\n".as_slice());
    }
    let mut before = 0;
    for call in 1..=1000u64 {
        if before >= whole.held().len() {
            break;
        }
        let table = TABLE.as_bytes().to_vec(alloc)?;
        let (status, sink) = run_in_pieces(alloc, WORDS, table, 7, &[], &[call])?;
        assert_eq!(rt; status, 7);
        assert_eq!(rt; sink.held(), &whole.held()[..before]);
        before += 7;
    }
    Ok(())
}

#[test]
fn refuses_long_tables(rt: HostRuntime) -> Result<(), Fail> {
    let alloc = rt.alloc();
    // A table at the limit is read to its end, and one byte more is too long.
    for (length, want, text) in [
        (4_194_304, 3, "refused table Fields 1\n"),
        (4_194_305, 11, "refused long\n"),
    ] {
        let table = vec![in alloc; b'a'; length]?;
        let (status, sink) = run_in_pieces(alloc, WORDS, table, 4096, &[], &[])?;
        assert_eq!(rt; status, want);
        assert_eq!(rt; sink.held(), text.as_bytes());
    }
    Ok(())
}
