//! What the words ask for.

ghost use Rattle.std.specs.Prelude.{◌≡◌, ◌≤◌, IsTrue, length, map};
ghost use Rattle.std.specs.List.{list_all, sum};
ghost use Rattle.case_words.specs.Names.{text_of, is_name_length, are_different};

use crate::boundaries::EdgeWords;
use arrayvec::ArrayVec;
use case_types::{Edition, Name, SLOTS};

/// The job of a command.
#[derive(Drop)]
pub enum Job {
    /// The report of a flash at a temperature and a pressure.
    Tp(FlashWords),
    /// The certificate of the answer of such a flash.
    Cert(FlashWords),
    /// The verdict on a certificate.
    Check,
    /// The report of a search for a phase boundary.
    Edge(EdgeWords),
}

/// What a flash is asked of.
#[derive(Drop)]
pub struct FlashWords {
    /// The temperature in mK.
    pub t: u32,
    /// The pressure in Pa.
    pub p: u32,
    /// The parts of the feed, in the order of the names.
    pub z: ArrayVec<u32, SLOTS>,
    /// The names of the components.
    pub names: ArrayVec<Name, SLOTS>,
    /// The tolerance in 2^-20 bit.
    pub tol: u32,
    /// The units of work.
    pub budget: u32,
    /// The edition of the equation: that of 1976, unless a word says else.
    pub edition: Edition,
    pub ghost t_low: { 50000 ≤ t },
    pub ghost t_high: { t ≤ 1500000 },
    pub ghost p_low: { 1000 ≤ p },
    pub ghost p_high: { p ≤ 100000000 },
    pub ghost total_low: { 1 ≤ sum z.items },
    pub ghost total_high: { sum z.items ≤ 1048576 },
    pub ghost as_many: { length z.items ≡ length names.items },
    pub ghost named: { IsTrue (list_all is_name_length (map text_of names.items)) },
    pub ghost differ: { IsTrue (are_different (map text_of names.items)) },
    pub ghost tol_low: { 128 ≤ tol },
    pub ghost tol_high: { tol ≤ 1048576 },
    pub ghost budget_low: { 1 ≤ budget },
    pub ghost budget_high: { budget ≤ 10000000 },
}
