//! The commands, and the keys that each wants.

ghost use Rattle.std.specs.Prelude.{◌≡◌};

use crate::boundaries::{By, Side};
use crate::keys::Key;

/// What the first word asks for.
#[derive(Clone, Copy, Debug, PartialEq, Eq)]
pub enum Command {
    /// A flash at a temperature and a pressure, and its report.
    Tp,
    /// A flash at a temperature and a pressure, and the certificate of its answer.
    Cert,
    /// The verdict on a certificate.
    Check,
    /// A search for a phase boundary.
    Edge(By, Side),
}

impl Command {
    ghost use Rattle.case_words.specs.Commands.{command_of, keys_of, takes_edition, searched_by};

    /// The command that is spelled so.
    #[tactic(auto, unfolding(crate::specs::Commands::command_of))]
    pub fn from_bytes(bytes: &[u8]) -> Option<Command>
        ensures { result ≡ command_of bytes.now }
    {
        if bytes == b"tp".as_slice() {
            Some(Command::Tp)
        } else if bytes == b"cert".as_slice() {
            Some(Command::Cert)
        } else if bytes == b"bubble-p".as_slice() {
            Some(Command::Edge(By::Pressure, Side::Bubble))
        } else if bytes == b"dew-p".as_slice() {
            Some(Command::Edge(By::Pressure, Side::Dew))
        } else if bytes == b"bubble-t".as_slice() {
            Some(Command::Edge(By::Temperature, Side::Bubble))
        } else if bytes == b"dew-t".as_slice() {
            Some(Command::Edge(By::Temperature, Side::Dew))
        } else if bytes == b"check".as_slice() {
            Some(Command::Check)
        } else {
            None
        }
    }

    /// The keys that must stand, in the order in which a missing one is named.
    pub fn keys(self) -> &'static [Key]
        ensures { result.now ≡ keys_of self }
    {
        match self {
            Command::Tp | Command::Cert => &FLASH_KEYS,
            Command::Check => &[],
            Command::Edge(By::Pressure, _) => &PRESSURE_KEYS,
            Command::Edge(By::Temperature, _) => &TEMPERATURE_KEYS,
        }
    }

    /// Whether a word may say the edition of the equation.
    pub fn takes_edition(self) -> bool
        ensures { result ≡ takes_edition self }
    {
        !matches!(self, Command::Check)
    }

    /// The quantity of `lo`, `hi` and `width`, where the command has these keys.
    pub fn searched(self) -> By
        ensures { result ≡ searched_by self }
    {
        match self {
            Command::Edge(by, _) => by,
            _ => By::Temperature,
        }
    }
}

/// The keys of a flash.
const FLASH_KEYS: [Key; 6] = [Key::T, Key::P, Key::Z, Key::Names, Key::Tol, Key::Budget];

/// The keys of a search over the pressure.
const PRESSURE_KEYS: [Key; 8] = [
    Key::T,
    Key::Lo,
    Key::Hi,
    Key::Width,
    Key::Z,
    Key::Names,
    Key::Tol,
    Key::Budget,
];

/// The keys of a search over the temperature.
const TEMPERATURE_KEYS: [Key; 8] = [
    Key::P,
    Key::Lo,
    Key::Hi,
    Key::Width,
    Key::Z,
    Key::Names,
    Key::Tol,
    Key::Budget,
];
