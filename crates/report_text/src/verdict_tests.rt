//! Verdicts, their texts and their statuses, worked by hand.

use crate::ends::End;
use crate::reports::report;
use cert_format::{CertFault, Verdict};
use std::test::Fail;

/// Verdicts, their statuses and their texts.
const VERDICTS: [(Verdict, u8, &str); 22] = [
    (
        Verdict::Accepted {
            u: 1_583_824_234_056,
            gap: 523_002_732,
        },
        0,
        "accepted U=1583824234056 gap=523002732\n",
    ),
    (
        Verdict::Accepted {
            u: -574_660_166,
            gap: 0,
        },
        0,
        "accepted U=-574660166 gap=0\n",
    ),
    (
        Verdict::Accepted {
            u: 1 - (1 << 80),
            gap: -1,
        },
        0,
        "accepted U=-1208925819614629174706175 gap=-1\n",
    ),
    (Verdict::BadParams, 9, "refused certificate BadParams\n"),
    (
        Verdict::BadBalance(1),
        9,
        "refused certificate BadBalance 1\n",
    ),
    (
        Verdict::BadBalance(4),
        9,
        "refused certificate BadBalance 4\n",
    ),
    (Verdict::BadEnergy, 9, "refused certificate BadEnergy\n"),
    (Verdict::BadGap, 9, "refused certificate BadGap\n"),
    (Verdict::BadLeaf(1), 9, "refused certificate BadLeaf 1\n"),
    (
        Verdict::BadLeaf(4_294_967_295),
        9,
        "refused certificate BadLeaf 4294967295\n",
    ),
    (
        Verdict::Refused(CertFault::Head),
        9,
        "refused certificate Head\n",
    ),
    (
        Verdict::Refused(CertFault::Line(2)),
        9,
        "refused certificate Line 2\n",
    ),
    (
        Verdict::Refused(CertFault::Line(37)),
        9,
        "refused certificate Line 37\n",
    ),
    (
        Verdict::Refused(CertFault::Line(0)),
        9,
        "refused certificate Line 0\n",
    ),
    (
        Verdict::Refused(CertFault::Tree(1)),
        9,
        "refused certificate Tree 1\n",
    ),
    (
        Verdict::Refused(CertFault::Tree(60_000_001)),
        9,
        "refused certificate Tree 60000001\n",
    ),
    (
        Verdict::Refused(CertFault::Cut),
        9,
        "refused certificate Cut\n",
    ),
    (
        Verdict::Refused(CertFault::Extra(1)),
        9,
        "refused certificate Extra 1\n",
    ),
    (
        Verdict::Refused(CertFault::Extra(12)),
        9,
        "refused certificate Extra 12\n",
    ),
    (Verdict::Refused(CertFault::TooLong), 11, "refused long\n"),
    (Verdict::ReadFault, 6, "refused read\n"),
    (Verdict::Memory, 8, ""),
];

#[test]
fn prints_verdicts(rt: HostRuntime) -> Result<(), Fail> {
    for (verdict, status, want) in VERDICTS {
        let end = End::Checked(verdict);
        assert_eq!(rt; end.status(), status, "{want}");
        let text = report(rt.alloc(), &end)?;
        assert_eq!(rt; text.as_slice(), want.as_bytes());
    }
    Ok(())
}
