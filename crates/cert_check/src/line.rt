//! The beginning of a line.

ghost use Rattle.std.specs.Prelude.{◌≡◌, []};
ghost use Rattle.cert_check.specs.Checking.{longer};

use arrayvec::ArrayVec;
use std::marker::Model;

/// The first bytes of a line: 401 are kept, since a longer line is none of a certificate.
#[derive(Drop)]
pub struct LineStart {
    bytes: ArrayVec<u8, 401>,
}

impl Model for LineStart {
    ghost use Rattle.std.specs.Prelude.{List, ℕ};

    ghost Value = { List ℕ };

    ghost view = { λ s. s.bytes.items };
}

impl LineStart {
    /// Of no byte.
    pub fn new() -> LineStart
        ensures { result ≡ [] }
    {
        LineStart {
            bytes: ArrayVec::new(),
        }
    }

    /// With the next byte.
    pub fn keep(&mut self, byte: u8)
        ensures { self.new ≡ longer self.old byte }
    {
        if self.bytes.len() < 401 {
            self.bytes.push(byte);
        }
    }

    /// Begins the next line.
    pub fn clear(&mut self)
        ensures { self.new ≡ [] }
    {
        self.bytes.clear();
    }

    /// The bytes that are kept.
    pub fn bytes(&self) -> &[u8]
        ensures { result.now ≡ self.now }
    {
        self.bytes.as_slice()
    }
}
