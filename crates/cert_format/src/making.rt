//! The certificate of an answer.

ghost use Rattle.std.specs.Prelude.{◌≡◌, ◌≤◌, ◌<◌, ◌^◌, length, slice_range, OnOk};
ghost use Rattle.dec_text.specs.Appending.{Adds};
ghost use Rattle.cert_format.specs.Writing.{head_of, last_letters, certificate_text};

use crate::heads::{CertParams, Head};
use crate::writing::put_cert;
use arrayvec::ArrayVec;
use case_types::{Answer, Phase, SLOTS, Split, Work};
use pr_params::Params;
use std::alloc::AllocError;

/// Appends the certificate of an answer to a case of these parameters.
///
/// # Errors
///
/// Memory is wanting.
pub fn put_certificate(
    out: &mut Vec<u8>,
    params: &Params,
    answer: &Answer,
) -> Result<(), AllocError>
    ensures { OnOk result (Adds out.old.items out.new.items (certificate_text params.now answer.now)) }
{
    put_cert(out, &head_of(params, answer), last_letters(&answer.work))
}

/// What the certificate of an answer states before its letters.
pub fn head_of(params: &Params, answer: &Answer) -> Head
    ensures { result ≡ head_of params.now answer.now }
{
    Head {
        version: 2,
        params: CertParams {
            case: params.case,
            two: params.two,
            e: params.e,
            t: params.t,
            q: params.q,
        },
        split: copy_of(&answer.split),
        u: answer.u,
        plane: answer.plane,
        low: answer.low,
        gap: answer.gap,
        letters: last_letters(&answer.work).len() as u32,
    }
}

/// The split once more.
fn copy_of(split: &Split) -> Split
    ensures { result ≡ split.now }
{
    Split {
        sum: split.sum,
        phases: copied_phases(split.phases.as_slice()),
    }
}

/// The phases once more.
fn copied_phases(phases: &[Phase]) -> ArrayVec<Phase, SLOTS>
    requires { length phases.now ≤ 4 }
    ensures { result.items ≡ phases.now }
{
    let mut list = ArrayVec::new();
    for phase in phases {
        list.push(*phase);
    }
    list
}

/// The letters of the last round, none where there is no round.
pub fn last_letters(work: &Work) -> &[u8]
    ensures letters { result.now ≡ last_letters work.now }
    ensures few { length result.now < 2 ^ 32 }
{
    match work.rounds.as_slice().last() {
        Some(round) => letters_between(work.letters.as_slice(), round.from, round.to),
        None => &[],
    }
}

/// The letters from a place to another, as far as there are any.
fn letters_between(letters: &[u8], from: u32, to: u32) -> &[u8]
    ensures letters { result.now ≡ slice_range letters.now from to }
    ensures few { length result.now ≤ to }
{
    let to = letters.len().min(to as usize);
    let from = to.min(from as usize);
    &letters[from..to]
}
