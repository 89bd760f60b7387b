//! The keys of the words.

ghost use Rattle.std.specs.Prelude.{◌≡◌};

use crate::commands::Command;

/// A key that must stand, in the order in which a missing one is named.
#[derive(Clone, Copy, Debug, PartialEq, Eq)]
pub enum Key {
    /// The temperature in K.
    T,
    /// The pressure in Pa.
    P,
    /// The lower end of a search, in Pa or K.
    Lo,
    /// The upper end of a search, in Pa or K.
    Hi,
    /// The most that the ends of what a search answers may differ, in Pa or K.
    Width,
    /// The parts of the feed.
    Z,
    /// The names of the components.
    Names,
    /// The tolerance in 2^-20 bit.
    Tol,
    /// The units of work.
    Budget,
}

/// A key of a command.
#[derive(Clone, Copy, Debug, PartialEq, Eq)]
pub enum FlashKey {
    /// One that must stand.
    Needed(Key),
    /// The edition of the equation, which may be left out.
    Kappa,
}

impl FlashKey {
    ghost use Rattle.case_words.specs.Keys.{key_of};

    /// The key of a command that is spelled so.
    #[tactic(auto, unfolding(crate::specs::Keys::key_of))]
    pub fn from_bytes(command: Command, bytes: &[u8]) -> Option<FlashKey>
        ensures { result ≡ key_of command bytes.now }
    {
        if command.takes_edition() && bytes == b"kappa".as_slice() {
            return Some(FlashKey::Kappa);
        }
        match Key::among(command.keys(), bytes) {
            Some(key) => Some(FlashKey::Needed(key)),
            None => None,
        }
    }
}

impl Key {
    ghost use Rattle.case_words.specs.Keys.{key_among, key_text};

    /// The key among these that is spelled so.
    fn among(keys: &[Key], bytes: &[u8]) -> Option<Key>
        ensures { result ≡ key_among keys.now bytes.now }
    {
        keys.iter()
            .copied()
            .find(|key| key.text().as_bytes() == bytes)
    }

    /// The key as it is spelled.
    pub fn text(self) -> &'static str
        ensures { result.now ≡ key_text self }
    {
        match self {
            Key::T => "T",
            Key::P => "P",
            Key::Lo => "lo",
            Key::Hi => "hi",
            Key::Width => "width",
            Key::Z => "z",
            Key::Names => "names",
            Key::Tol => "tol",
            Key::Budget => "budget",
        }
    }
}
