//! Both checkers on texts of certificates. The verdicts are those of a program that was written apart from this one.

use super::*;
use cert_format::{CertFault, Verdict};
use io_edge::MemSource;
use std::alloc::{AllocError, Global};
use std::process::Abort;
use std::test::Fail;

/// The certificate of one component at its critical point, in version 1, by its lines.
const ONE: [&str; 17] = [
    "prflash-cert 1",
    "T 300000",
    "P 1000000",
    "n 1",
    "c a 300000 1000000 0 1",
    "two 1630477228166597776 1630477228166597777",
    "e 1586259924992 1586260020565",
    "t 1 281474976710656 281474976710656",
    "split 1 1",
    "f 266171709716 1",
    "U 884872885750",
    "plane 884872886272",
    "low -523714538",
    "gap 523714016",
    "tree 109",
    "yyyypypyssyyysyssyyssyssyyyyssyssyyssyssyyyssyssyyssyssyyyyyyssyssyyssyssyyssyssyyyssyssyssyyysssyssyyysssysp",
    "end",
];

/// That of methane and decane by the kappa of 1978, after 60 units of work.
const TWO: [&str; 23] = [
    "prflash-cert 2",
    "T 300000",
    "P 5000000",
    "n 2",
    "kappa 78",
    "c methane 190564 4599200 114 1",
    "c decane 617700 2110000 4923 1",
    "k 1 2 0",
    "two 1630477228166597776 1630477228166597777",
    "e 1586259924992 1586260020565",
    "t 1 353166896635210 353166896635211",
    "t 2 196160526529093 196160526529094",
    "q 1 2 13379572484777997 13379572484777998",
    "split 2 2199023255552",
    "f 956925095763 356593558860 1099293399732",
    "f 65653858500 742918068916 218228044",
    "U -6320320966187",
    "plane 1421080359396 -14061722291032",
    "low -23954046506842",
    "gap 23954046506473",
    "tree 117",
    "yyy1py1py1pyp1py1pp1ps1ypsy1py1ps1ss1sy1ss1ss1sy1sy1sy1ss1ss1sy1sss1sy1ss1ss1ypsy1sy1sy1ss1ss1ss1sy1ss1ssy1ys1psysspp",
    "end",
];

/// That of methane, propane and decane, after 24 units of work.
const THREE: [&str; 29] = [
    "prflash-cert 2",
    "T 300000",
    "P 5000000",
    "n 3",
    "kappa 76",
    "c methane 190564 4599200 114 5",
    "c propane 369830 4248000 1523 3",
    "c decane 617700 2110000 4923 2",
    "k 1 2 0",
    "k 1 3 0",
    "k 2 3 0",
    "two 1630477228166597776 1630477228166597777",
    "e 1586259924992 1586260020565",
    "t 1 353166896635210 353166896635211",
    "t 2 253512483901751 253512483901752",
    "t 3 196160526529093 196160526529094",
    "q 1 2 18984242075481536 18984242075481537",
    "q 1 3 13379572484777997 13379572484777998",
    "q 2 3 12858589822410517 12858589822410518",
    "split 2 10995116277760",
    "f 878391731450 1395799516320 2578620202400 2197834161600",
    "f 82681777542 4101758622560 719914680928 1189093952",
    "U -3158180791768",
    "plane 1180932960673 -2400393098016 -15142646715972",
    "low -28050913354399",
    "gap 28050913354894",
    "tree 41",
    "yyy12y1p2py1p2pyp1pp12pp2ypsy1p2psspppppp",
    "end",
];

/// Lines of the certificate of one component that are changed, counted from 1, and the verdict then.
const OF_ONE: [(&[(usize, &str)], Verdict); 47] = [
    (
        &[],
        Verdict::Accepted {
            u: 884872885750,
            gap: 523714016,
        },
    ),
    (&[(1, "prflash-cert 9")], Verdict::Refused(CertFault::Head)),
    (
        &[(1, "prflash-cert 1\r")],
        Verdict::Refused(CertFault::Head),
    ),
    (&[(2, "T 0300000")], Verdict::Refused(CertFault::Line(2))),
    (&[(2, "T 49999")], Verdict::Refused(CertFault::Line(2))),
    (
        &[(
            2,
            "T 3333333333333333333333333333333333333333333333333333333333333333333333333333333333333333333333333333333333333333333333333333333333333333333333333333333333333333333333333333333333333333333333333333333333333333333333333333333333333333333333333333333333333333333333333333333333333333333333333333333333333333333333333333333333333333333333333333333333333333333333333333333333333333333333333333333333333333",
        )],
        Verdict::Refused(CertFault::Line(2)),
    ),
    (&[(4, "n 0")], Verdict::Refused(CertFault::Line(4))),
    (
        &[(4, "n 1\nkappa 76")],
        Verdict::Refused(CertFault::Line(5)),
    ),
    (
        &[(1, "prflash-cert 2"), (4, "n 1\nkappa 76")],
        Verdict::Accepted {
            u: 884872885750,
            gap: 523714016,
        },
    ),
    (
        &[(1, "prflash-cert 2")],
        Verdict::Refused(CertFault::Line(5)),
    ),
    (
        &[(1, "prflash-cert 2"), (4, "n 1\nkappa 77")],
        Verdict::Refused(CertFault::Line(5)),
    ),
    (
        &[(5, "c a 300000 1000000 15001 1")],
        Verdict::Refused(CertFault::Line(5)),
    ),
    (
        &[(5, "c a 300000 1000000 0 0")],
        Verdict::Refused(CertFault::Line(5)),
    ),
    (
        &[(5, "c a 300000 1000000 15000 1")],
        Verdict::Accepted {
            u: 884872885750,
            gap: 523714016,
        },
    ),
    (
        &[(6, "two 1630477228166597776 1630477228166597778")],
        Verdict::BadParams,
    ),
    (
        &[(7, "e 1586260020565 1586259924992")],
        Verdict::Refused(CertFault::Line(7)),
    ),
    (
        &[(8, "t 2 281474976710656 281474976710656")],
        Verdict::Refused(CertFault::Line(8)),
    ),
    (&[(9, "split 0 1")], Verdict::Refused(CertFault::Line(9))),
    (&[(10, "f 0 1")], Verdict::Refused(CertFault::Line(10))),
    (
        &[(10, "f 1099511627776 1")],
        Verdict::Refused(CertFault::Line(10)),
    ),
    (
        &[(10, "f 266171709716 20282409603651670423947251286016")],
        Verdict::Refused(CertFault::Line(10)),
    ),
    (&[(10, "f 266171709716 2")], Verdict::BadBalance(1)),
    (
        &[(10, "f 266171709716 2"), (11, "U 884872885751")],
        Verdict::BadBalance(1),
    ),
    (&[(11, "U -0")], Verdict::Refused(CertFault::Line(11))),
    (
        &[(11, "U 1208925819614629174706176")],
        Verdict::Refused(CertFault::Line(11)),
    ),
    (&[(11, "U 884872885751")], Verdict::BadEnergy),
    (
        &[(11, "U 884872885751"), (14, "gap 523714017")],
        Verdict::BadEnergy,
    ),
    (&[(14, "gap 523714017")], Verdict::BadGap),
    (
        &[(13, "low -523714537"), (14, "gap 523714015")],
        Verdict::BadLeaf(36),
    ),
    (&[(15, "tree 0")], Verdict::Refused(CertFault::Line(15))),
    (
        &[(15, "tree 60000001")],
        Verdict::Refused(CertFault::Line(15)),
    ),
    (
        &[(
            16,
            "xyyypypyssyyysyssyyssyssyyyyssyssyyssyssyyyssyssyyssyssyyyyyyssyssyyssyssyyssyssyyyssyssyssyyysssyssyyysssysp",
        )],
        Verdict::Refused(CertFault::Tree(1)),
    ),
    (&[(17, "end ")], Verdict::Refused(CertFault::Line(17))),
    (
        &[(
            17,
            "eeeeeeeeeeeeeeeeeeeeeeeeeeeeeeeeeeeeeeeeeeeeeeeeeeeeeeeeeeeeeeeeeeeeeeeeeeeeeeeeeeeeeeeeeeeeeeeeeeeeeeeeeeeeeeeeeeeeeeeeeeeeeeeeeeeeeeeeeeeeeeeeeeeeeeeeeeeeeeeeeeeeeeeeeeeeeeeeeeeeeeeeeeeeeeeeeeeeeeeeeeeeeeeeeeeeeeeeeeeeeeeeeeeeeeeeeeeeeeeeeeeeeeeeeeeeeeeeeeeeeeeeeeeeeeeeeeeeeeeeeeeeeeeeeeeeeeeeeeeeeeeeeeeeeeeeeeeeeeeeeeeeeeeeeeeeeeeeeeeeeeeeeeeeeeeeeeeeeeeeeeeeeeeeeeeeeeeeeeeeeeeeeeeeeeeeeeeeeeeeee",
        )],
        Verdict::Refused(CertFault::Line(17)),
    ),
    (&[(17, "end\n")], Verdict::Refused(CertFault::Extra(1))),
    (
        &[(13, "low 0"), (14, "gap -522"), (15, "tree 1"), (16, "p")],
        Verdict::BadLeaf(1),
    ),
    (
        &[
            (13, "low -1152921504606846976"),
            (14, "gap 1152921504606846454"),
            (15, "tree 1"),
            (16, "p"),
        ],
        Verdict::Accepted {
            u: 884872885750,
            gap: 1152921504606846454,
        },
    ),
    (
        &[
            (13, "low -1152921504606846976"),
            (14, "gap 1152921504606846454"),
            (15, "tree 1"),
            (16, "m"),
        ],
        Verdict::BadLeaf(1),
    ),
    (
        &[
            (13, "low -1152921504606846976"),
            (14, "gap 1152921504606846454"),
            (15, "tree 1"),
            (16, "s"),
        ],
        Verdict::BadLeaf(1),
    ),
    (
        &[
            (13, "low -1152921504606846976"),
            (14, "gap 1152921504606846454"),
            (15, "tree 1"),
            (16, "1"),
        ],
        Verdict::Refused(CertFault::Tree(1)),
    ),
    (
        &[
            (13, "low -1152921504606846976"),
            (14, "gap 1152921504606846454"),
            (15, "tree 1"),
            (16, ""),
        ],
        Verdict::Refused(CertFault::Tree(1)),
    ),
    (
        &[
            (13, "low -1152921504606846976"),
            (14, "gap 1152921504606846454"),
            (15, "tree 3"),
            (16, "ymp"),
        ],
        Verdict::BadLeaf(1),
    ),
    (
        &[
            (13, "low -1152921504606846976"),
            (14, "gap 1152921504606846454"),
            (15, "tree 5"),
            (16, "ypp"),
        ],
        Verdict::Refused(CertFault::Tree(4)),
    ),
    (
        &[
            (13, "low -1152921504606846976"),
            (14, "gap 1152921504606846454"),
            (15, "tree 2"),
            (16, "ypp"),
        ],
        Verdict::Refused(CertFault::Tree(3)),
    ),
    (
        &[
            (13, "low -1152921504606846976"),
            (14, "gap 1152921504606846454"),
            (15, "tree 4"),
            (16, "yppp"),
        ],
        Verdict::Refused(CertFault::Tree(4)),
    ),
    (
        &[
            (13, "low -1152921504606846976"),
            (14, "gap 1152921504606846454"),
            (15, "tree 3"),
            (16, "yp"),
        ],
        Verdict::Refused(CertFault::Tree(3)),
    ),
    (
        &[
            (13, "low -1152921504606846976"),
            (14, "gap 1152921504606846454"),
            (15, "tree 83"),
            (
                16,
                "yyyyyyyyyyyyyyyyyyyyyyyyyyyyyyyyyyyyyyyyypppppppppppppppppppppppppppppppppppppppppp",
            ),
        ],
        Verdict::Refused(CertFault::Tree(41)),
    ),
];

/// Lines of the certificate of three components that are changed, counted from 1, and the verdict then.
const OF_THREE: [(&[(usize, &str)], Verdict); 10] = [
    (
        &[],
        Verdict::Accepted {
            u: -3158180791768,
            gap: 28050913354894,
        },
    ),
    (
        &[
            (25, "low -1028050913354399"),
            (26, "gap 1028050913354894"),
            (27, "tree 7"),
            (28, "1p1p2pm"),
        ],
        Verdict::Accepted {
            u: -3158180791768,
            gap: 1028050913354894,
        },
    ),
    (
        &[
            (25, "low -1028050913354399"),
            (26, "gap 1028050913354894"),
            (27, "tree 7"),
            (28, "1p1p2pp"),
        ],
        Verdict::BadLeaf(4),
    ),
    (
        &[
            (25, "low -1028050913354399"),
            (26, "gap 1028050913354894"),
            (27, "tree 7"),
            (28, "1m1p2pm"),
        ],
        Verdict::BadLeaf(1),
    ),
    (
        &[(27, "tree 3"), (28, "3pp")],
        Verdict::Refused(CertFault::Tree(1)),
    ),
    (
        &[(7, "c methane 369830 4248000 1523 3")],
        Verdict::Refused(CertFault::Line(7)),
    ),
    (
        &[(7, "c propane 369830 4248000 1523 1048572")],
        Verdict::Refused(CertFault::Line(7)),
    ),
    (&[(9, "k 2 1 0")], Verdict::Refused(CertFault::Line(9))),
    (&[(20, "split 2 10995116277761")], Verdict::BadBalance(1)),
    (
        &[(18, "q 1 3 13379572484777997 13379572484777999")],
        Verdict::BadParams,
    ),
];

/// Lines of the certificate of two components that are changed, counted from 1, and the verdict then.
const OF_TWO: [(&[(usize, &str)], Verdict); 2] = [
    (
        &[],
        Verdict::Accepted {
            u: -6320320966187,
            gap: 23954046506473,
        },
    ),
    (&[(5, "kappa 76")], Verdict::BadEnergy),
];

/// The text of some lines.
fn text_of(
    alloc: Global,
    lines: &[&str],
    changes: &[(usize, &str)],
) -> Result<Vec<u8>, AllocError> {
    let mut text = Vec::new(alloc);
    for (i, line) in lines.iter().enumerate() {
        put_line(&mut text, i + 1, line, &*changes)?;
    }
    Ok(text)
}

/// Appends the line of this number, or what it is changed to.
fn put_line(
    text: &mut Vec<u8>,
    number: usize,
    line: &str,
    changes: &[(usize, &str)],
) -> Result<(), AllocError> {
    for (changed, new) in changes {
        if *changed == number {
            text.extend_from_slice(new.as_bytes())?;
            text.push(b'\n')?;
            return Ok(());
        }
    }
    text.extend_from_slice(line.as_bytes())?;
    text.push(b'\n')?;
    Ok(())
}

/// Has both checkers judge a text, in pieces of 1 and of 4096 bytes.
fn judge(rt: &impl Abort, alloc: Global, text: &[u8], want: Verdict) -> Result<(), Fail> {
    for piece in [1, 4096] {
        let mut source = MemSource::new(text.to_vec(alloc)?, piece, [].to_vec(alloc)?);
        assert_eq!(rt; check_stream(&mut source), want);
    }
    let mut source = MemSource::new(text.to_vec(alloc)?, 4096, [].to_vec(alloc)?);
    assert_eq!(rt; check(alloc, &mut source), want);
    Ok(())
}

#[test]
fn judges_certificates_of_one(rt: HostRuntime) -> Result<(), Fail> {
    for (changes, want) in OF_ONE {
        judge(&rt, rt.alloc(), &text_of(rt.alloc(), &ONE, changes)?, want)?;
    }
    Ok(())
}

#[test]
fn judges_certificates_of_two_and_three(rt: HostRuntime) -> Result<(), Fail> {
    for (changes, want) in OF_TWO {
        judge(&rt, rt.alloc(), &text_of(rt.alloc(), &TWO, changes)?, want)?;
    }
    for (changes, want) in OF_THREE {
        judge(
            &rt,
            rt.alloc(),
            &text_of(rt.alloc(), &THREE, changes)?,
            want,
        )?;
    }
    Ok(())
}

/// The certificate of one cell, and another whose second leaf is left out, cut before each byte.
#[test]
fn cuts(rt: HostRuntime) -> Result<(), Fail> {
    let trees: [&[(usize, &str)]; 2] = [
        &[
            (13, "low -1152921504606846976"),
            (14, "gap 1152921504606846454"),
            (15, "tree 1"),
            (16, "p"),
        ],
        &[
            (13, "low -1152921504606846976"),
            (14, "gap 1152921504606846454"),
            (15, "tree 3"),
            (16, "ypp"),
        ],
    ];
    for changes in trees {
        let text = text_of(rt.alloc(), &ONE, changes)?;
        for end in 0..text.len() {
            judge(
                &rt,
                rt.alloc(),
                &text[..end],
                Verdict::Refused(CertFault::Cut),
            )?;
        }
    }
    Ok(())
}

/// A source that fails behind the byte that decides: the one that reads the whole text first meets the fault.
#[test]
fn meets_faults_behind(rt: HostRuntime) -> Result<(), Fail> {
    let alloc = rt.alloc();
    let letters =
        "xyyypypyssyyysyssyyssyssyyyyssyssyyssyssyyyssyssyyssyssyyyyyyssyssyyssyssyyssyssyyyssyssyssyyysssyssyyysssysp";
    let text = text_of(alloc, &ONE, &[(16, letters)])?;
    let mut source = MemSource::new(text.to_vec(alloc)?, 271, [2].to_vec(alloc)?);
    assert_eq!(rt; check(alloc, &mut source), Verdict::ReadFault);
    let mut source = MemSource::new(text, 271, [2].to_vec(alloc)?);
    assert_eq!(rt;
        check_stream(&mut source),
        Verdict::Refused(CertFault::Tree(1))
    );
    Ok(())
}

/// A text of so many bytes that begins with this line: all others are `a`.
fn padded(alloc: Global, first: &[u8], length: usize) -> Result<Vec<u8>, Fail> {
    let mut text = first.to_vec(alloc)?;
    for _ in first.len()..length {
        text.push(b'a')?;
    }
    Ok(text)
}

/// One byte more than a certificate may have, all in one line.
#[test]
fn too_long_text(rt: HostRuntime) -> Result<(), Fail> {
    let alloc = rt.alloc();
    let text = padded(alloc, b"".as_slice(), 67_108_865)?;
    let mut source = MemSource::new(text, 4096, [].to_vec(alloc)?);
    assert_eq!(rt;
        check(alloc, &mut source),
        Verdict::Refused(CertFault::TooLong)
    );
    Ok(())
}

#[test]
fn too_long_stream(rt: HostRuntime) -> Result<(), Fail> {
    let alloc = rt.alloc();
    let text = padded(alloc, b"".as_slice(), 67_108_865)?;
    let mut source = MemSource::new(text, 4096, [].to_vec(alloc)?);
    assert_eq!(rt;
        check_stream(&mut source),
        Verdict::Refused(CertFault::TooLong)
    );
    Ok(())
}

/// A stream is read up to the byte that decides, a text to its end.
#[test]
fn too_long_behind(rt: HostRuntime) -> Result<(), Fail> {
    let alloc = rt.alloc();
    let text = padded(alloc, b"prflash-cert 9\n".as_slice(), 67_108_865)?;
    let mut source = MemSource::new(text, 4096, [].to_vec(alloc)?);
    assert_eq!(rt;
        check(alloc, &mut source),
        Verdict::Refused(CertFault::TooLong)
    );
    let text = padded(alloc, b"prflash-cert 9\n".as_slice(), 67_108_865)?;
    let mut source = MemSource::new(text, 4096, [].to_vec(alloc)?);
    assert_eq!(rt;
        check_stream(&mut source),
        Verdict::Refused(CertFault::Head)
    );
    Ok(())
}
