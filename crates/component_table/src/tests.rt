//! Tables and their faults, worked by hand.

use super::*;
use case_types::Edition;
use case_words::{FlashWords, Job, Word, name_text, read_words};
use dec_text::DecFault;
use std::alloc::{AllocError, Global};
use std::process::Abort;
use std::test::Fail;

/// The fault of a table, or none.
fn fault_of(rt: &impl Abort, alloc: Global, text: &[u8]) -> Option<TableError> {
    assert!(rt; text.len() <= 4_194_304);
    read_table(alloc, text).err()
}

/// A table and its first fault.
const REFUSED: [(&str, TableFault); 40] = [
    ("", TableFault::Fields(1)),
    ("\n\n", TableFault::Fields(1)),
    ("mix,a,1,1,1,,7", TableFault::Fields(1)),
    ("comp,a,300,1000000,0", TableFault::Fields(1)),
    ("comp,a,300,1000000,0,\n\nk,a", TableFault::Fields(2)),
    ("mix,a,1,1,1,", TableFault::Kind(1)),
    ("Comp,a,300,1000000,0,", TableFault::Kind(1)),
    (
        "comp,,300,1000000,0,",
        TableFault::Number(1, 2, DecFault::Empty),
    ),
    (
        "comp,a.b,300,1000000,0,",
        TableFault::Number(1, 2, DecFault::Digit),
    ),
    (
        "comp,abcdefghijklmnopq,300,1000000,0,",
        TableFault::Number(1, 2, DecFault::Digit),
    ),
    (
        "comp,a,,1000000,0,",
        TableFault::Number(1, 3, DecFault::Empty),
    ),
    (
        "comp,a,-300,1000000,0,",
        TableFault::Number(1, 3, DecFault::Sign),
    ),
    (
        "comp,a,300.0001,1000000,0,",
        TableFault::Number(1, 3, DecFault::Places),
    ),
    ("comp,a,4.999,x,0,", TableFault::Range(1, 3)),
    ("comp,a,1500.001,1000000,0,", TableFault::Range(1, 3)),
    (
        "comp,a,9999999999999,1000000,0,",
        TableFault::Number(1, 3, DecFault::TooLarge),
    ),
    ("comp,a,300,0,0,", TableFault::Range(1, 4)),
    (
        "comp,a,300,1000000.5,0,",
        TableFault::Number(1, 4, DecFault::Places),
    ),
    ("comp,a,300,50000001,0,", TableFault::Range(1, 4)),
    (
        "comp,a,300,1000000,0.01142,",
        TableFault::Number(1, 5, DecFault::Places),
    ),
    ("comp,a,300,1000000,-0.5001,", TableFault::Range(1, 5)),
    ("comp,a,300,1000000,1.5001,x", TableFault::Range(1, 5)),
    (
        "comp,a,300,1000000,0,x",
        TableFault::Number(1, 6, DecFault::Digit),
    ),
    (
        "comp,a,300,1000000,0,\ncomp,a,300,1000000,0,",
        TableFault::Twice(2),
    ),
    (
        "comp,a,300,1000000,0,\ncomp,a,300,1,0,",
        TableFault::Range(2, 4),
    ),
    (
        "comp,a,300,1000000,0,\nk,a,b,0.1,,",
        TableFault::UnknownName(2),
    ),
    (
        "comp,a,300,1000000,0,\nk,b,a,0.1,,",
        TableFault::UnknownName(2),
    ),
    (
        "comp,a,300,1000000,0,\nk,b,b,0.1,,",
        TableFault::UnknownName(2),
    ),
    ("comp,a,300,1000000,0,\nk,a,a,0.1,,", TableFault::Twice(2)),
    (
        "comp,a,300,1000000,0,\nk,a,a,0.6,,",
        TableFault::Range(2, 4),
    ),
    (
        "comp,a,300,1000000,0,\nk,a,,0.1,,",
        TableFault::Number(2, 3, DecFault::Empty),
    ),
    (
        "comp,a,300,1000000,0,\nk,a,b,0.1,0,",
        TableFault::Number(2, 5, DecFault::Digit),
    ),
    (
        "comp,a,300,1000000,0,\nk,a,b,0.1,,0",
        TableFault::Number(2, 6, DecFault::Digit),
    ),
    (
        "comp,a,300,1000000,0,\ncomp,b,300,1000000,0,\nk,a,b,0.1,,\nk,b,a,0.1,,",
        TableFault::Twice(4),
    ),
    (
        "comp,a,300,1000000,0,\ncomp,b,300,1000000,0,\nk,a,b,0.1,,\nk,a,b,0.1,,",
        TableFault::Twice(4),
    ),
    (
        "cp,a,1,2,3,4\ncomp,a,300,1000000,0,",
        TableFault::UnknownName(1),
    ),
    (
        "comp,a,300,1000000,0,\ncp,a,1,2,3,4\ncp,a,1,2,3,4",
        TableFault::Twice(3),
    ),
    (
        "comp,a,300,1000000,0,\ncp,a,1,2,3,",
        TableFault::Number(2, 6, DecFault::Empty),
    ),
    (
        "comp,a,300,1000000,0,\ncp,a,1,-10000.001,3,x",
        TableFault::Range(2, 4),
    ),
    (
        "comp,a,300,1000000,0,\n comp,b,300,1000000,0,",
        TableFault::Kind(2),
    ),
];

#[test]
fn refuses_the_first_fault(rt: HostRuntime) -> Result<(), Fail> {
    for (text, want) in REFUSED {
        assert_eq!(rt;
            fault_of(&rt, rt.alloc(), text.as_bytes()),
            Some(TableError::Fault(want)),
            "{text}"
        );
    }
    Ok(())
}

#[test]
fn refuses_other_bytes_than_utf8(rt: HostRuntime) -> Result<(), Fail> {
    let bytes = b"mix,a\xff,1,1,1,";
    assert_eq!(rt;
        fault_of(&rt, rt.alloc(), bytes),
        Some(TableError::Fault(TableFault::Utf8(1)))
    );
    let bytes = b"mix,a\xff,1,1,1,,";
    assert_eq!(rt;
        fault_of(&rt, rt.alloc(), bytes),
        Some(TableError::Fault(TableFault::Fields(1)))
    );
    Ok(())
}

#[test]
fn reads_each_kind_of_record(rt: HostRuntime) -> Result<(), Fail> {
    // A byte order mark, quoted fields, both ends of a line, numbers with zeros, both orders of a pair.
    let cases: [&[u8]; 3] = [
        b"comp,a,190.564,4599200,0.0114,\ncomp,b,369.83,4248000,-0.5,\nk,b,a,-0.05,,\ncp,b,19.25,52.13,11.97,-11.32\n",
        b"\xef\xbb\xbfcomp,a,190.564,4599200,0.0114,\r\n\r\ncomp,b,369.83,4248000,-0.5,\r\nk,b,a,-0.05,,\r\ncp,b,19.25,52.13,11.97,-11.32",
        b"\"comp\",\"a\",0190.5640,4599200.0,0.01140,\"\"\ncp,a,0,0,0,0\n",
    ];
    for text in cases {
        assert!(rt; text.len() <= 4_194_304);
        let Ok(table) = read_table(rt.alloc(), text) else {
            return Err("refused".into());
        };
        let Some(row) = table.comps.first() else {
            return Err("no component".into());
        };
        assert_eq!(rt; name_text(&row.name), b"a".as_slice());
        assert_eq!(rt; row.tc, 190_564);
        assert_eq!(rt; row.pc, 4_599_200);
        assert_eq!(rt; row.w, 114);
        assert_eq!(rt; table.cps.len(), 1);
        if table.comps.len() == 1 {
            assert_eq!(rt; table.cps.first(), Some(&CpRow { i: 1, cp: [0; 4] }));
        } else {
            assert_eq!(rt;
                table.pairs.first(),
                Some(&PairRow {
                    i: 2,
                    j: 1,
                    k: -500
                })
            );
            assert_eq!(rt;
                table.cps.first(),
                Some(&CpRow {
                    i: 2,
                    cp: [19_250, 52_130, 11_970, -11_320]
                })
            );
        }
    }
    Ok(())
}

/// So many components with different names.
fn components(alloc: Global, n: u32) -> Result<Vec<u8>, AllocError> {
    let mut text = Vec::new(alloc);
    for i in 0..n {
        text.extend_from_slice(b"comp,")?;
        text.push(b'a' + (i / 26 % 26) as u8)?;
        text.push(b'a' + (i % 26) as u8)?;
        text.extend_from_slice(b",300,1000000,0,\n")?;
    }
    Ok(text)
}

#[test]
fn takes_256_components(rt: HostRuntime) -> Result<(), Fail> {
    let text = components(rt.alloc(), 256)?;
    assert_eq!(rt; fault_of(&rt, rt.alloc(), &text), None);
    let text = components(rt.alloc(), 257)?;
    assert_eq!(rt;
        fault_of(&rt, rt.alloc(), &text),
        Some(TableError::Fault(TableFault::TooMany(257)))
    );
    Ok(())
}

/// What the words of a line ask for, parted by spaces.
fn asked_by(alloc: Global, line: &str) -> Result<FlashWords, Fail> {
    let mut words = Vec::new(alloc);
    for text in line.split_whitespace() {
        words.push(Word::new(text.as_bytes().to_vec(alloc)?))?;
    }
    match read_words(&words) {
        Ok(Job::Tp(asked)) => Ok(asked),
        _ => Err("refused words".into()),
    }
}

#[test]
fn names_the_first_name_without_a_component(rt: HostRuntime) -> Result<(), Fail> {
    let text = b"comp,a,300,1000000,0,\ncomp,b,300,1000000,0,\n";
    assert!(rt; text.len() <= 4_194_304);
    let Ok(table) = read_table(rt.alloc(), text) else {
        return Err("refused table".into());
    };
    let cases: [(&str, Option<CaseFault>); 5] = [
        ("z=1,1 names=a,z", Some(CaseFault::NoName(2))),
        ("z=1,0 names=a,z", Some(CaseFault::NoName(2))),
        ("z=1,1,1 names=z,a,y", Some(CaseFault::NoName(1))),
        ("z=1 names=A", Some(CaseFault::NoName(1))),
        ("z=1,1 names=b,a", None),
    ];
    for (ending, want) in cases {
        let mut line = String::from_str(rt.alloc(), "tp T=300 P=1000000 tol=1024 budget=1 ")?;
        line.push_str(ending)?;
        let asked = asked_by(rt.alloc(), &line)?;
        assert_eq!(rt; pick(&table, &asked).err(), want, "{ending}");
    }
    Ok(())
}

#[test]
fn picks_the_live_components_in_the_order_of_the_names(rt: HostRuntime) -> Result<(), Fail> {
    let text =
        b"comp,a,300,1000000,0,\ncomp,b,400,2000000,0.1,\ncomp,c,500,3000000,-0.2,\nk,c,a,-0.05,,\nk,a,b,0.1,,\n";
    assert!(rt; text.len() <= 4_194_304);
    let Ok(table) = read_table(rt.alloc(), text) else {
        return Err("refused table".into());
    };
    let asked = asked_by(
        rt.alloc(),
        "tp T=300 P=1000000 tol=1024 budget=1 z=2,0,1 names=c,b,a kappa=78",
    )?;
    let Ok(picked) = pick(&table, &asked) else {
        return Err("refused names".into());
    };
    let case = picked.case;
    let (first, second) = (case.rows[0], case.rows[1]);
    let interactions = case.k;
    assert_eq!(rt; case.n, 2);
    assert_eq!(rt; name_text(&first.name), b"c".as_slice());
    assert_eq!(rt; first.tc, 500_000);
    assert_eq!(rt; first.w, -2_000);
    assert_eq!(rt; name_text(&second.name), b"a".as_slice());
    assert_eq!(rt; interactions[0], [0, -500, 0, 0]);
    assert_eq!(rt; interactions[1], [-500, 0, 0, 0]);
    assert_eq!(rt; case.z, [2, 1, 0, 0]);
    assert_eq!(rt; case.total, 3);
    assert_eq!(rt; case.t, 300_000);
    assert_eq!(rt; case.p, 1_000_000);
    assert_eq!(rt; case.edition, Edition::Y1978);
    assert_eq!(rt; picked.live.as_slice(), [0, 2].as_slice());
    assert_eq!(rt; picked.names.len(), 3);
    Ok(())
}

#[test]
fn names_the_first_live_name_without_a_heat_capacity(rt: HostRuntime) -> Result<(), Fail> {
    let text =
        b"comp,a,300,1000000,0,\ncomp,b,300,1000000,0,\ncomp,c,300,1000000,0,\ncp,c,1,-2,3,4\ncp,a,0,0,0,0\n";
    assert!(rt; text.len() <= 4_194_304);
    let Ok(table) = read_table(rt.alloc(), text) else {
        return Err("refused table".into());
    };
    let cases: [(&str, Result<(), CaseFault>); 4] = [
        ("z=1,1 names=c,a", Ok(())),
        ("z=1,0,1 names=c,b,a", Ok(())),
        ("z=0,1,1 names=b,a,b2", Err(CaseFault::NoName(3))),
        ("z=1,0,1 names=a,c,b", Err(CaseFault::NoCp(3))),
    ];
    for (ending, want) in cases {
        let mut line = String::from_str(rt.alloc(), "tp T=300 P=1000000 tol=1024 budget=1 ")?;
        line.push_str(ending)?;
        let asked = asked_by(rt.alloc(), &line)?;
        match pick(&table, &asked) {
            Ok(picked) => assert_eq!(rt; need_cp(&picked), want, "{ending}"),
            Err(fault) => assert_eq!(rt; Err(fault), want, "{ending}"),
        }
    }
    Ok(())
}
