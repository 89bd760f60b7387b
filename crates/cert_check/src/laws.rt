//! Laws of certificates.

ghost use Rattle.cert_check.specs.Certificates.{GoodCertifies, AcceptedIsGood};
ghost use Rattle.cert_check.specs.Converse.{AnswersAreAccepted, GoodIsAccepted};

/// The split of a good certificate is certified with the stated energy and gap, for every choice of the roots and of the logarithm of
/// e between their printed ends.
pub fn good_certifies()
    ensures { GoodCertifies }
{}

/// A text that is accepted is that of a good certificate with this energy and this gap.
pub fn accepted_is_good()
    ensures { AcceptedIsGood }
{}

/// The text of a good certificate is accepted, with its energy and its gap.
pub fn good_is_accepted()
    ensures { GoodIsAccepted }
{}

/// The certificate of a lawful answer is accepted with the answer's energy and gap, whatever its outcome.
pub fn answers_are_accepted()
    ensures { AnswersAreAccepted }
{}
