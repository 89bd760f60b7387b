//! How many lines a head has.

ghost use Rattle.std.specs.Prelude.{◌≡◌, ◌≤◌, length};
ghost use Rattle.cert_format.specs.Heads.{said_of};
ghost use Rattle.cert_lines.specs.Places.{pairs_of};

use cert_format::Head;

/// How many lines the head has.
pub fn lines_of(head: &Head) -> u32
    ensures value { result ≡ length (said_of head.now) }
    ensures few { result ≤ 37 }
{
    let edition = if head.version == 2 { 1 } else { 0 };
    let n = u32::from(head.params.case.n);
    let pairs = pairs_of(head.params.case.n);
    let phases = head.split.phases.len() as u32;
    12 + edition + 2 * n + 2 * pairs + phases
}

/// How many pairs `n` components have.
fn pairs_of(n: u8) -> u32
    requires { n ≤ 4 }
    ensures value { result ≡ pairs_of n }
    ensures few { result ≤ 6 }
{
    match n {
        2 => 1,
        3 => 3,
        4 => 6,
        _ => 0,
    }
}
