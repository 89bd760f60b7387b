//! What a checker answers.

use cert_lines::CertFault;

/// What a checker answers to a certificate: that it is good, or the first test that it breaks.
#[derive(Clone, Copy, Debug, PartialEq, Eq)]
pub enum Verdict {
    /// The certificate is good: its split is certified with this energy and this gap, in 2^-40 bit.
    Accepted { u: i128, gap: i128 },
    /// The parameters of the case are refused, or a pair of ends isn't that of the case.
    BadParams,
    /// The parts of this component, from 1, don't add up to its part of the feed.
    BadBalance(u8),
    /// The energy isn't that of the split.
    BadEnergy,
    /// The gap isn't the energy, less the plane at the feed, less the low.
    BadGap,
    /// The leaf of this number, from 1, isn't as its letter says, or lies lower than the stated low.
    BadLeaf(u32),
    /// The text isn't that of a certificate.
    Refused(CertFault),
    /// The source failed.
    ReadFault,
    /// Memory was wanting.
    Memory,
}
