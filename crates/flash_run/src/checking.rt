//! The verdict on a certificate.

ghost use Rattle.std.specs.Prelude.{◌≡◌, Ok};
ghost use Rattle.case_words.specs.Jobs.{PlainCheck};
ghost use Rattle.flash_run.specs.Ends.{Works, end_of};

use cert_check::check_stream;
use cert_format::{CertFault, Verdict};
use io_edge::Source;
use report_text::End;

/// What the certificate on the source comes to. No memory is taken before the report.
pub fn check_job<S: Source>(source: &mut S) -> End
    ensures { Works (Ok PlainCheck) (S.left source.old) (S.left source.new)
        (S.faults source.old) (S.faults source.new) (S.failed source.new) result }
{
    end_of(check_stream(source))
}

/// The end that a verdict comes to.
fn end_of(verdict: Verdict) -> End
    ensures { result ≡ end_of verdict }
{
    match verdict {
        Verdict::ReadFault => End::Read,
        Verdict::Memory => End::Memory,
        Verdict::Refused(CertFault::TooLong) => End::TooLong,
        verdict => End::Checked(verdict),
    }
}
