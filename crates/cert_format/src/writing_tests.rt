//! Certificates that an independent program wrote, written again.

use super::*;
use arrayvec::ArrayVec;
use case_types::{
    Answer, Case, Edition, Name, Outcome, PAIRS, Phase, Plane, Reserved, Round, RoundEnd, Row,
    SLOTS, Split, Work,
};
use log_laws::Iv;
use pr_params::params;
use std::test::Fail;

const METHANE: Row = Row {
    name: Name {
        len: 7,
        bytes: *b"methane\0\0\0\0\0\0\0\0\0",
    },
    tc: 190_560,
    pc: 4_599_000,
    w: 110,
};

const BUTANE: Row = Row {
    name: Name {
        len: 8,
        bytes: *b"n-butane\0\0\0\0\0\0\0\0",
    },
    tc: 425_120,
    pc: 3_796_000,
    w: 2_000,
};

const PROPANE: Row = Row {
    name: Name {
        len: 7,
        bytes: *b"propane\0\0\0\0\0\0\0\0\0",
    },
    tc: 369_830,
    pc: 4_248_000,
    w: 1_520,
};

const NO_ENDS: Iv = Iv { lo: 0, hi: 0 };

/// Methane and n-butane at 300 K and 20 bar, in version 1.
const TWO: &str = "prflash-cert 1\nT 300000\nP 2000000\nn 2\nc methane 190560 4599000 110 1\n\
    c n-butane 425120 3796000 2000 1\nk 1 2 133\ntwo 1630477228166597776 1630477228166597777\n\
    e 1586259924992 1586260020565\nt 1 353170603237260 353170603237261\nt 2 236452903193789 236452903193790\n\
    q 1 2 17945463005366646 17945463005366647\nsplit 2 2199023255552\n\
    f 33244065886 1002716680432 199752527632\nf 799438760646 96794947344 899759100144\nU -292754081611\n\
    plane 1243992776516 -1829500939096\nlow -540375259952\ngap 540375259631\ntree 191\nyyy1y1pyps\nend\n";

/// Propane at 300 K and 20 bar, in version 2, with other letters.
const ONE: &str =
    "prflash-cert 2\nT 300000\nP 2000000\nn 1\nkappa 78\nc propane 369830 4248000 1520 1\n\
    two 1630477228166597776 1630477228166597777\ne 1586259924992 1586260020565\nt 1 253512483901751 253512483901752\n\
    split 1 1\nf 721131876457 1\nU 266769915804\nplane 266769915904\nlow -521219303237\ngap 521219303137\ntree 2\n\
    yp\nend\n";

#[test]
fn writes_a_head_of_version_one(rt: HostRuntime) -> Result<(), Fail> {
    let mut phases = ArrayVec::new();
    phases.push(Phase {
        parts: [1_002_716_680_432, 199_752_527_632, 0, 0],
        packing: 33_244_065_886,
    });
    phases.push(Phase {
        parts: [96_794_947_344, 899_759_100_144, 0, 0],
        packing: 799_438_760_646,
    });
    let q = Iv {
        lo: 17_945_463_005_366_646,
        hi: 17_945_463_005_366_647,
    };
    let head = Head {
        version: 1,
        params: CertParams {
            case: Case {
                n: 2,
                rows: [METHANE, BUTANE, METHANE, METHANE],
                k: [[0, 133, 0, 0], [133, 0, 0, 0], [0; SLOTS], [0; SLOTS]],
                z: [1; SLOTS],
                total: 2,
                t: 300_000,
                p: 2_000_000,
                edition: Edition::Y1976,
            },
            two: Iv {
                lo: 1_630_477_228_166_597_776,
                hi: 1_630_477_228_166_597_777,
            },
            e: Iv {
                lo: 1_586_259_924_992,
                hi: 1_586_260_020_565,
            },
            t: [
                Iv {
                    lo: 353_170_603_237_260,
                    hi: 353_170_603_237_261,
                },
                Iv {
                    lo: 236_452_903_193_789,
                    hi: 236_452_903_193_790,
                },
                NO_ENDS,
                NO_ENDS,
            ],
            q: [q, NO_ENDS, NO_ENDS, NO_ENDS, NO_ENDS, NO_ENDS],
        },
        split: Split {
            sum: 2_199_023_255_552,
            phases,
        },
        u: -292_754_081_611,
        plane: Plane {
            lam: [1_243_992_776_516, -1_829_500_939_096, 0, 0],
        },
        low: -540_375_259_952,
        gap: 540_375_259_631,
        letters: 191,
    };
    let text = write_cert(rt.alloc(), &head, b"yyy1y1pyps")?;
    assert_eq!(rt; text.as_slice(), TWO.as_bytes());
    Ok(())
}

/// The letters `p`, `y`, `p`, the last two of them in the last round.
fn work(rt: HostRuntime, round: Round) -> Result<Work, Fail> {
    let mut letters = Reserved::new(rt.alloc());
    letters.reserve(3)?;
    letters.push(b'p');
    letters.push(b'y');
    letters.push(b'p');
    let mut rounds = Reserved::new(rt.alloc());
    rounds.reserve(1)?;
    rounds.push(round);
    Ok(Work {
        columns: Reserved::new(rt.alloc()),
        pivots: Reserved::new(rt.alloc()),
        letters,
        rounds,
    })
}

#[test]
fn writes_the_certificate_of_an_answer(rt: HostRuntime) -> Result<(), Fail> {
    let case = Case {
        n: 1,
        rows: [PROPANE; SLOTS],
        k: [[0; SLOTS]; SLOTS],
        z: [1; SLOTS],
        total: 1,
        t: 300_000,
        p: 2_000_000,
        edition: Edition::Y1978,
    };
    let Ok(params) = params(&case) else {
        panic!(rt; "parameters");
    };
    let plane = Plane {
        lam: [266_769_915_904, 0, 0, 0],
    };
    let round = Round {
        plane,
        u: 266_769_915_804,
        columns: 0,
        pivots: 0,
        from: 1,
        to: 3,
        end: RoundEnd::Clear,
    };
    let mut phases = ArrayVec::new();
    phases.push(Phase {
        parts: [1, 0, 0, 0],
        packing: 721_131_876_457,
    });
    let answer = Answer {
        outcome: Outcome::Closed,
        split: Split { sum: 1, phases },
        u: 266_769_915_804,
        plane,
        low: -521_219_303_237,
        gap: 521_219_303_137,
        units: 0,
        work: work(rt, round)?,
    };
    let mut out = Vec::new(rt.alloc());
    put_certificate(&mut out, &params, &answer)?;
    assert_eq!(rt; out.as_slice(), ONE.as_bytes());
    Ok(())
}
