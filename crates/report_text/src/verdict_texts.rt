//! The text of a verdict on a certificate.

ghost use Rattle.std.specs.Prelude.{◌++◌, OnOk, codes};
ghost use Rattle.dec_text.specs.Appending.{Adds};
ghost use Rattle.report_text.specs.VerdictText.{verdict_text, accepted_text, form_fault_text, refused_certificate};

use crate::refusals::put_placed;
use crate::texts::put_line;
use cert_format::{CertFault, Verdict};
use dec_text::{put_number, put_text};
use itoa::Integer;
use std::alloc::AllocError;

/// Appends a verdict.
pub fn put_verdict(out: &mut Vec<u8>, verdict: Verdict) -> Result<(), AllocError>
    ensures { OnOk result (Adds out.old.items out.new.items (verdict_text verdict)) }
{
    match verdict {
        Verdict::Accepted { u, gap } => put_accepted(out, u, gap),
        Verdict::BadParams => put_refused(out, "BadParams"),
        Verdict::BadBalance(component) => put_refused_at(out, "BadBalance", component),
        Verdict::BadEnergy => put_refused(out, "BadEnergy"),
        Verdict::BadGap => put_refused(out, "BadGap"),
        Verdict::BadLeaf(leaf) => put_refused_at(out, "BadLeaf", leaf),
        Verdict::Refused(fault) => put_form_fault(out, fault),
        Verdict::ReadFault => put_text(out, "refused read\n"),
        Verdict::Memory => Ok(()),
    }
}

/// Appends that a certificate is good, with its energy and its gap.
fn put_accepted(out: &mut Vec<u8>, u: i128, gap: i128) -> Result<(), AllocError>
    ensures { OnOk result (Adds out.old.items out.new.items (accepted_text u gap)) }
{
    put_text(out, "accepted U=")?;
    put_number(out, u)?;
    put_line(out, " gap=", gap)?;
    Ok(())
}

/// Appends why a text isn't that of a certificate.
fn put_form_fault(out: &mut Vec<u8>, fault: CertFault) -> Result<(), AllocError>
    ensures { OnOk result (Adds out.old.items out.new.items (form_fault_text fault)) }
{
    match fault {
        CertFault::Head => put_refused(out, "Head"),
        CertFault::Line(line) => put_refused_at(out, "Line", line),
        CertFault::Tree(letter) => put_refused_at(out, "Tree", letter),
        CertFault::Cut => put_refused(out, "Cut"),
        CertFault::Extra(byte) => put_refused_at(out, "Extra", byte),
        CertFault::TooLong => put_text(out, "refused long\n"),
    }
}

/// Appends why a certificate is refused.
fn put_refused(out: &mut Vec<u8>, fault: &str) -> Result<(), AllocError>
    ensures { OnOk result (Adds out.old.items out.new.items (refused_certificate fault.now)) }
{
    put_text(out, "refused certificate ")?;
    put_text(out, fault)?;
    put_text(out, "\n")
}

/// Appends why a certificate is refused, with the place.
fn put_refused_at<I: Integer>(out: &mut Vec<u8>, fault: &str, place: I) -> Result<(), AllocError>
    ensures { OnOk result (Adds out.old.items out.new.items (refused_certificate (fault.now ++ codes " " ++ I.text place))) }
{
    put_text(out, "refused certificate ")?;
    put_placed(out, fault, place)?;
    put_text(out, "\n")
}
