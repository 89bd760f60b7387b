//! What the surface bounds, and what lows of its cells promise.

ghost use Rattle.pr_surface.specs.Bounding.{NumbersBound, LowsCertify, CertificatesCertify};

/// The surface of an accepted case bounds its energy, for every choice of the roots and of the logarithm of e between their
/// printed ends.
pub fn numbers_bound()
    ensures { NumbersBound }
{}

/// A low for a tree of the whole domain under a plane bounds every division of the feed, for one to four components: its energy
/// is at least that of the plane at the feed and the low, for every choice of the roots and of the logarithm of e between their
/// printed ends.
pub fn lows_certify()
    ensures { LowsCertify }
{}

/// What a certificate states of a case makes its split certified, with its upper energy and its gap.
pub fn certificates_certify()
    ensures { CertificatesCertify }
{}
