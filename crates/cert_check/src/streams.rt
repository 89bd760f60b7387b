//! Verdicts over a source of bytes.

ghost use Rattle.std.specs.Prelude.{◌≡◌, ◌≢◌, true, Some, None};
ghost use Rattle.cert_check.specs.Judging.{IsVerdict};
ghost use Rattle.cert_check.specs.Streams.{AnswersStream, AnswersText, past_limit, JudgesOrFails};

use crate::checker::Checker;
use cert_format::{CertFault, Verdict};
use io_edge::{ReadStop, Source, Taken, read_all};
use log_enclose::{LogStore, Logarithms};
use std::alloc::Global;

/// The most bytes of a certificate.
const LIMIT: usize = 67_108_864;

/// The most bytes that are taken at once.
const BUFFER_SIZE: usize = 4096;

/// The verdict on a text, which is read to its end first.
///
/// At most one byte past 67,108,864 is taken, and a text of more is refused with `TooLong`. `ReadFault` and `Memory` come while the
/// text is read; nothing is taken after a fault.
pub fn check<S: Source>(alloc: Global, source: &mut S) -> Verdict
    ensures answers { AnswersText (S.left source.old) (S.left source.new) (S.faults source.old) (S.faults source.new) result }
    ensures last_take { result ≡ Verdict.ReadFault → S.failed source.new ≡ true }
    ensures last_fault { S.faults source.new ≢ S.faults source.old → S.failed source.new ≡ true }
{
    match read_all(alloc, source, LIMIT) {
        Ok(text) => verdict_of(&text),
        Err(ReadStop::Failed) => Verdict::ReadFault,
        Err(ReadStop::TooLong) => Verdict::Refused(CertFault::TooLong),
        Err(ReadStop::Memory) => Verdict::Memory,
    }
}

/// The verdict on a whole text.
fn verdict_of(text: &[u8]) -> Verdict
    ensures { IsVerdict text.now result }
{
    let logs = LogStore::new();
    let mut checker = Checker::new(Logarithms::Kept(&logs));
    if let Some(verdict) = checker.take_all(text) {
        return verdict;
    }
    checker.end()
}

/// The verdict on a stream, which is read up to the byte that decides it, without memory.
///
/// At most one byte past 67,108,864 is taken. Where none of the bytes up to there decides, `Cut` turns to `TooLong`, and what would
/// be accepted to `Extra(1)`. Nothing is taken after a fault, which is told by `ReadFault`.
pub fn check_stream<S: Source>(source: &mut S) -> Verdict
    ensures answers { AnswersStream (S.left source.old) (S.left source.new) (S.faults source.old) (S.faults source.new) result }
    ensures last_take { result ≡ Verdict.ReadFault → S.failed source.new ≡ true }
    ensures last_fault { S.faults source.new ≢ S.faults source.old → S.failed source.new ≡ true }
{
    match judged(source) {
        Some(verdict) => verdict,
        None => Verdict::ReadFault,
    }
}

/// The verdict on a stream, or none where the source failed.
fn judged<S: Source>(source: &mut S) -> Option<Verdict>
    ensures answers { JudgesOrFails (S.left source.old) (S.left source.new) (S.faults source.old) (S.faults source.new) result }
    ensures no_fault { result ≢ Some Verdict.ReadFault }
    ensures last_take { result ≡ None → S.failed source.new ≡ true }
    ensures last_fault { S.faults source.new ≢ S.faults source.old → S.failed source.new ≡ true }
{
    let logs = LogStore::new();
    let mut checker = Checker::new(Logarithms::Kept(&logs));
    let mut buf = [0u8; BUFFER_SIZE];
    let mut taken: usize = 0;
    while taken < LIMIT {
        let most = (LIMIT - taken).min(BUFFER_SIZE);
        match source.take(&mut buf[..most]) {
            Taken::Bytes(count) => {
                if let Some(verdict) = checker.take_all(&buf[..count]) {
                    return Some(verdict);
                }
                taken += count;
            }
            Taken::End => return Some(checker.end()),
            Taken::Failed => return None,
        }
    }
    match source.take(&mut buf[..1]) {
        Taken::Bytes(_) => Some(past_limit(checker.end())),
        Taken::End => Some(checker.end()),
        Taken::Failed => None,
    }
}

/// What the verdict on the bytes up to the limit turns to, where more follow.
fn past_limit(verdict: Verdict) -> Verdict
    ensures { result ≡ past_limit verdict }
{
    match verdict {
        Verdict::Accepted { .. } => Verdict::Refused(CertFault::Extra(1)),
        Verdict::Refused(CertFault::Cut) => Verdict::Refused(CertFault::TooLong),
        _ => verdict,
    }
}
