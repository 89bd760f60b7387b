//! Heads of certificates that an independent program wrote, and what is refused of heads like them.

use super::*;
use case_types::Edition;
use case_words::name_text;
use std::test::Fail;

/// Methane and n-butane at 300 K and 20 bar, in version 1: the head, and the first letters behind it.
const TWO: &str = "prflash-cert 1\nT 300000\nP 2000000\nn 2\nc methane 190560 4599000 110 1\n\
    c n-butane 425120 3796000 2000 1\nk 1 2 133\ntwo 1630477228166597776 1630477228166597777\n\
    e 1586259924992 1586260020565\nt 1 353170603237260 353170603237261\nt 2 236452903193789 236452903193790\n\
    q 1 2 17945463005366646 17945463005366647\nsplit 2 2199023255552\n\
    f 33244065886 1002716680432 199752527632\nf 799438760646 96794947344 899759100144\nU -292754081611\n\
    plane 1243992776516 -1829500939096\nlow -540375259952\ngap 540375259631\ntree 191\nyyy1y1pyps";

/// Propane at 300 K and 20 bar, in version 2.
const ONE: &str =
    "prflash-cert 2\nT 300000\nP 2000000\nn 1\nkappa 78\nc propane 369830 4248000 1520 1\n\
    two 1630477228166597776 1630477228166597777\ne 1586259924992 1586260020565\nt 1 253512483901751 253512483901752\n\
    split 1 1\nf 721131876457 1\nU 266769915804\nplane 266769915904\nlow -521219303237\ngap 521219303137\ntree 11\n\
    yyyppsysysp\nend\n";

/// Three components, in version 2.
const THREE: &str =
    "prflash-cert 2\nT 350000\nP 5000000\nn 3\nkappa 76\nc methane 190560 4599000 110 1\n\
    c propane 369830 4248000 1520 2\nc n-butane 425120 3796000 2000 3\nk 1 2 140\nk 1 3 133\nk 2 3 33\n\
    two 1630477228166597776 1630477228166597777\ne 1586259924992 1586260020565\nt 1 381467850313494 381467850313495\n\
    t 2 273824778662758 273824778662759\nt 3 255398325497447 255398325497448\n\
    q 1 2 18983829298292757 18983829298292758\nq 1 3 17945463005366646 17945463005366647\n\
    q 2 3 17247065676808579 17247065676808580\nsplit 1 6\nf 588553655349 1 2 3\nU -1418306556542\n\
    plane 1492941428736 327807470592 -1092332669952\nlow -14276443001627\ngap 13046210051741\ntree 1\np\nend\n";

/// Four components in four phases, the longest head. Its numbers are of no flash.
const FOUR: &str =
    "prflash-cert 2\nT 50000\nP 1000\nn 4\nkappa 76\nc a 5000 100000 -5000 1\nc b 1500000 50000000 15000 1\n\
    c c 5000 100000 0 1\nc ABCDEFGHIJKLMN_9 5000 100000 0 1048573\nk 1 2 -5000\nk 1 3 5000\nk 1 4 0\nk 2 3 0\nk 2 4 0\n\
    k 3 4 0\ntwo -4611686018427387903 4611686018427387903\ne 0 0\nt 1 0 0\nt 2 0 0\nt 3 0 0\nt 4 0 0\nq 1 2 0 0\nq 1 3 0 0\n\
    q 1 4 0 0\nq 2 3 0 0\nq 2 4 0 0\nq 3 4 0 0\nsplit 4 20282409603651670423947251286015\nf 1 0 0 0 1\n\
    f 1099511627775 20282409603651670423947251286015 0 0 0\nf 5 0 1 0 0\nf 5 0 0 1 0\nU -1208925819614629174706175\n\
    plane 1208925819614629174706175 0 0 0\nlow 0\ngap 0\ntree 60000000\n";

/// A head, its version, how many components and phases it has, and the stated number of letters.
const READ: [(&str, u8, u8, usize, u32); 4] = [
    (ONE, 2, 1, 1, 11),
    (TWO, 1, 2, 2, 191),
    (THREE, 2, 3, 1, 1),
    (FOUR, 2, 4, 4, 60_000_000),
];

#[test]
fn reads_heads_of_both_versions(rt: HostRuntime) -> Result<(), Fail> {
    for (text, version, components, phases, letters) in READ {
        let Ok((head, behind)) = read_head(text.as_bytes()) else {
            panic!(rt; "{text}");
        };
        assert_eq!(rt; head.version, version, "{text}");
        assert_eq!(rt; head.params.case.n, components, "{text}");
        assert_eq!(rt; head.split.phases.len(), phases, "{text}");
        assert_eq!(rt; head.letters, letters, "{text}");
        // Every text that ends before the head's last newline is cut.
        for end in 0..behind {
            let cut = read_head(&text.as_bytes()[..end]).err();
            assert_eq!(rt; cut, Some(CertFault::Cut), "{text} {end}");
        }
    }
    Ok(())
}

#[test]
fn keeps_the_case(rt: HostRuntime) -> Result<(), Fail> {
    let Ok((head, behind)) = read_head(TWO.as_bytes()) else {
        panic!(rt; "a head");
    };
    assert_eq!(rt; &TWO.as_bytes()[behind..], b"yyy1y1pyps".as_slice());
    let case = head.params.case;
    assert_eq!(rt; case.t, 300_000);
    assert_eq!(rt; case.p, 2_000_000);
    assert_eq!(rt; case.edition, Edition::Y1976);
    assert_eq!(rt; name_text(&case.rows[0].name), b"methane".as_slice());
    assert_eq!(rt; name_text(&case.rows[1].name), b"n-butane".as_slice());
    assert_eq!(rt; name_text(&case.rows[2].name), b"".as_slice());
    assert_eq!(rt; case.rows[1].tc, 425_120);
    assert_eq!(rt; case.rows[1].pc, 3_796_000);
    assert_eq!(rt; case.rows[1].w, 2000);
    assert_eq!(rt; case.z, [1, 1, 0, 0]);
    assert_eq!(rt; case.total, 2);
    assert_eq!(rt;
        case.k,
        [[0, 133, 0, 0], [133, 0, 0, 0], [0, 0, 0, 0], [0, 0, 0, 0]]
    );
    Ok(())
}

#[test]
fn keeps_ends_and_split(rt: HostRuntime) -> Result<(), Fail> {
    let Ok((head, _)) = read_head(TWO.as_bytes()) else {
        panic!(rt; "a head");
    };
    assert_eq!(rt; head.params.two.lo, 1_630_477_228_166_597_776);
    assert_eq!(rt; head.params.e.hi, 1_586_260_020_565);
    let (t, q) = (head.params.t, head.params.q);
    let (second, first_pair, past) = (t[1].lo, q[0].hi, q[1].hi);
    assert_eq!(rt; second, 236_452_903_193_789);
    assert_eq!(rt; first_pair, 17_945_463_005_366_647);
    assert_eq!(rt; past, 0);
    assert_eq!(rt; head.split.sum, 2_199_023_255_552);
    let Some(phase) = head.split.phases.get(1) else {
        panic!(rt; "two phases");
    };
    assert_eq!(rt; phase.packing, 799_438_760_646);
    assert_eq!(rt; phase.parts, [96_794_947_344, 899_759_100_144, 0, 0]);
    assert_eq!(rt; head.u, -292_754_081_611);
    assert_eq!(rt;
        head.plane.lam,
        [1_243_992_776_516, -1_829_500_939_096, 0, 0]
    );
    assert_eq!(rt; head.low, -540_375_259_952);
    assert_eq!(rt; head.gap, 540_375_259_631);
    Ok(())
}

#[test]
fn keeps_pairs_of_three_and_four(rt: HostRuntime) -> Result<(), Fail> {
    let Ok((three, _)) = read_head(THREE.as_bytes()) else {
        panic!(rt; "a head");
    };
    let k = three.params.case.k;
    assert_eq!(rt; k[0], [0, 140, 133, 0]);
    assert_eq!(rt; k[2], [133, 33, 0, 0]);
    let q = three.params.q;
    let (first_and_third, last) = (q[1].lo, q[3].lo);
    assert_eq!(rt; first_and_third, 17_945_463_005_366_646);
    assert_eq!(rt; last, 17_247_065_676_808_579);
    let Ok((four, _)) = read_head(FOUR.as_bytes()) else {
        panic!(rt; "a head");
    };
    let k = four.params.case.k;
    assert_eq!(rt; k[0], [0, -5000, 5000, 0]);
    assert_eq!(rt; four.params.case.total, 1 << 20);
    assert_eq!(rt; four.u, -(1 << 80) + 1);
    let Ok((one, _)) = read_head(ONE.as_bytes()) else {
        panic!(rt; "a head");
    };
    assert_eq!(rt; one.params.case.edition, Edition::Y1978);
    Ok(())
}

/// A text of version 1 for one component, from its fifth line on.
macro_rules! one {
    ($lines:literal) => {
        concat!("prflash-cert 1\nT 300000\nP 2000000\nn 1\n", $lines)
    };
}

/// A text of version 1 for two components, from its fifth line on.
macro_rules! two {
    ($lines:literal) => {
        concat!("prflash-cert 1\nT 300000\nP 2000000\nn 2\n", $lines)
    };
}

/// A text of version 1 for one component in one phase, from its tenth line on.
macro_rules! phase {
    ($lines:literal) => {
        concat!(
            "prflash-cert 1\nT 300000\nP 2000000\nn 1\nc a 190560 4599000 110 1\ntwo 1 2\ne 1 2\nt 1 1 2\nsplit 1 1\n",
            $lines
        )
    };
}

/// A text and its first fault.
const REFUSED: [(&str, CertFault); 51] = [
    // The end before a newline comes before any other fault of that line.
    ("", CertFault::Cut),
    ("prflash-cert 9", CertFault::Cut),
    ("prflash-cert 1\nT 0", CertFault::Cut),
    // The first line.
    ("\n", CertFault::Head),
    ("prflash-cert 9\n", CertFault::Head),
    ("prflash-cert 0\n", CertFault::Head),
    ("prflash-cert 01\n", CertFault::Head),
    ("prflash-cert 1 \n", CertFault::Head),
    ("prflash-cert\n", CertFault::Head),
    ("prflash-cert 1\r\n", CertFault::Head),
    // Spellings.
    ("prflash-cert 1\nT 0300000\n", CertFault::Line(2)),
    ("prflash-cert 1\nT  300000\n", CertFault::Line(2)),
    ("prflash-cert 1\nT 300000 \n", CertFault::Line(2)),
    ("prflash-cert 1\nT +300000\n", CertFault::Line(2)),
    ("prflash-cert 1\nT 300000.0\n", CertFault::Line(2)),
    ("prflash-cert 1\nT 300000 1\n", CertFault::Line(2)),
    ("prflash-cert 1\nT300000\n", CertFault::Line(2)),
    ("prflash-cert 1\nT\n", CertFault::Line(2)),
    ("prflash-cert 1\nP 2000000\n", CertFault::Line(2)),
    // Ranges of the conditions.
    ("prflash-cert 1\nT 49999\n", CertFault::Line(2)),
    ("prflash-cert 1\nT 1500001\n", CertFault::Line(2)),
    ("prflash-cert 1\nT 300000\nP 999\n", CertFault::Line(3)),
    (
        "prflash-cert 1\nT 300000\nP 100000001\n",
        CertFault::Line(3),
    ),
    (
        "prflash-cert 1\nT 300000\nP 1000\nn 5\n",
        CertFault::Line(4),
    ),
    // The edition has a line in version 2 alone.
    (one!("kappa 76\n"), CertFault::Line(5)),
    (
        "prflash-cert 2\nT 300000\nP 1000\nn 1\nc a 190560 4599000 110 1\n",
        CertFault::Line(5),
    ),
    (
        "prflash-cert 2\nT 300000\nP 1000\nn 1\nkappa 77\n",
        CertFault::Line(5),
    ),
    // Components: names, a range, a name twice, the feed's total.
    (one!("c  190560 4599000 110 1\n"), CertFault::Line(5)),
    (one!("c a.b 190560 4599000 110 1\n"), CertFault::Line(5)),
    (
        one!("c abcdefghijklmnopq 190560 4599000 110 1\n"),
        CertFault::Line(5),
    ),
    (one!("c a 190560 4599000 15001 1\n"), CertFault::Line(5)),
    (one!("c a 190560 4599000 110 0\n"), CertFault::Line(5)),
    (one!("c a 190560 4599000 -0 1\n"), CertFault::Line(5)),
    (
        two!("c a 190560 4599000 110 1\nc a 190560 4599000 110 1\n"),
        CertFault::Line(6),
    ),
    (
        two!("c a 190560 4599000 110 1048575\nc b 190560 4599000 110 2\n"),
        CertFault::Line(6),
    ),
    // Interactions: order, range.
    (
        two!("c a 190560 4599000 110 1\nc b 190560 4599000 110 1\nk 2 1 0\n"),
        CertFault::Line(7),
    ),
    (
        two!("c a 190560 4599000 110 1\nc b 190560 4599000 110 1\nk 1 2 5001\n"),
        CertFault::Line(7),
    ),
    // Pairs of ends: order, size, the component.
    (
        one!("c a 190560 4599000 110 1\ntwo 2 1\n"),
        CertFault::Line(6),
    ),
    (
        one!("c a 190560 4599000 110 1\ntwo 0 4611686018427387904\n"),
        CertFault::Line(6),
    ),
    (
        one!("c a 190560 4599000 110 1\ntwo 1 2\ne 1 0\n"),
        CertFault::Line(7),
    ),
    (
        one!("c a 190560 4599000 110 1\ntwo 1 2\ne 0 1\nt 2 0 1\n"),
        CertFault::Line(8),
    ),
    (
        one!("c a 190560 4599000 110 1\ntwo 1 2\ne 0 1\nt 1 1 0\n"),
        CertFault::Line(8),
    ),
    // Phases: a packing fraction, no part, one part more.
    (phase!("f 0 1\n"), CertFault::Line(10)),
    (phase!("f 1099511627776 1\n"), CertFault::Line(10)),
    (phase!("f 5 0\n"), CertFault::Line(10)),
    (phase!("f 5 1 1\n"), CertFault::Line(10)),
    // Energies and letters.
    (
        phase!("f 5 1\nU 1208925819614629174706176\n"),
        CertFault::Line(11),
    ),
    (phase!("f 5 1\nU 0\nplane 0 0\n"), CertFault::Line(12)),
    (
        phase!("f 5 1\nU 0\nplane 0\nlow 0\ngap 0\ntree 0\n"),
        CertFault::Line(15),
    ),
    (
        phase!("f 5 1\nU 0\nplane 0\nlow 0\ngap 0\ntree 60000001\n"),
        CertFault::Line(15),
    ),
    (
        phase!("f 5 1\nU 0\nplane 0\nlow 0\ngap 0\ntree 1"),
        CertFault::Cut,
    ),
];

#[test]
fn tells_the_first_fault(rt: HostRuntime) {
    for (text, fault) in REFUSED {
        assert_eq!(rt; read_head(text.as_bytes()).err(), Some(fault), "{text}");
    }
}
