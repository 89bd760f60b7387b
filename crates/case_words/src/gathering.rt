//! What the words have given so far.

ghost use Rattle.std.specs.Prelude.{◌≡◌, IfOk, IsTrue, Ok, Some, map};
ghost use Rattle.case_words.specs.declared.boundaries.By.TheVariants.{Pressure, Temperature};
ghost use Rattle.case_words.specs.Counts.{is_as_many, count_of, are_ordered};
ghost use Rattle.case_words.specs.Items.{is_within};
ghost use Rattle.case_words.specs.Names.{text_of};
ghost use Rattle.case_words.specs.Quantities.{least, greatest, quantity};

use crate::boundaries::{By, EdgeWords, Side};
use crate::commands::Command;
use crate::faults::WordFault;
use crate::items::{
    behind, place_of, read_edition, read_names, read_number, read_parts, read_quantity, read_width,
};
use crate::jobs::{FlashWords, Job};
use crate::keys::{FlashKey, Key};
use arrayvec::ArrayVec;
use case_types::{Edition, Name, SLOTS};

/// The values of the keys that stood.
#[derive(Drop)]
pub struct Given {
    pub t: Option<u32>,
    pub p: Option<u32>,
    pub lo: Option<u32>,
    pub hi: Option<u32>,
    pub width: Option<u32>,
    pub z: Option<ArrayVec<u32, SLOTS>>,
    pub names: Option<ArrayVec<Name, SLOTS>>,
    pub tol: Option<u32>,
    pub budget: Option<u32>,
    pub edition: Option<Edition>,
}

impl Given {
    ghost use Rattle.case_words.specs.Answers.{Answers};
    ghost use Rattle.case_words.specs.Commands.{searched_by};
    ghost use Rattle.case_words.specs.Jobs.{with_word, with_value, with_needed, lo_of, hi_of, feed_of, called_of, stands, needed_stands, nothing, asked_at, asked_of, fixed_of, asked_there, edge_of, job_from};
    ghost use Rattle.case_words.specs.Views.{gathered_of, asked_by, edge_asked_by, plain_job};
    ghost use Rattle.case_words.specs.Keeping.{IsKept, KeepsFlash};

    /// Nothing yet.
    pub fn new() -> Given
        ensures { gathered_of result ≡ nothing }
    {
        Given {
            t: None,
            p: None,
            lo: None,
            hi: None,
            width: None,
            z: None,
            names: None,
            tol: None,
            budget: None,
            edition: None,
        }
    }

    /// Takes the word of a command at a place. After a fault nothing is said of what was given.
    pub fn take(&mut self, command: Command, place: usize, word: &[u8]) -> Result<(), WordFault>
        ensures { Answers (λ _. gathered_of self.new) (with_word command place (gathered_of self.old) word.now) result }
    {
        let end = place_of(word, b'=');
        if end == word.len() {
            return Err(WordFault::Unknown(place));
        }
        let Some(key) = FlashKey::from_bytes(command, &word[..end]) else {
            return Err(WordFault::Unknown(place));
        };
        if self.has(key) {
            return Err(WordFault::Twice(place));
        }
        self.set(place, command.searched(), key, behind(word, end))
    }

    /// Whether the key stood before.
    fn has(&self, key: FlashKey) -> bool
        ensures { result ≡ stands (gathered_of self.now) key }
    {
        match key {
            FlashKey::Needed(key) => self.has_needed(key),
            FlashKey::Kappa => self.edition.is_some(),
        }
    }

    /// Whether a key that must stand stood before.
    fn has_needed(&self, key: Key) -> bool
        ensures { result ≡ needed_stands (gathered_of self.now) key }
    {
        match key {
            Key::T => self.t.is_some(),
            Key::P => self.p.is_some(),
            Key::Lo => self.lo.is_some(),
            Key::Hi => self.hi.is_some(),
            Key::Width => self.width.is_some(),
            Key::Z => self.z.is_some(),
            Key::Names => self.names.is_some(),
            Key::Tol => self.tol.is_some(),
            Key::Budget => self.budget.is_some(),
        }
    }

    /// How many parts the feed has, where it was given.
    fn count_parts(&self) -> Option<usize>
        ensures { result ≡ count_of (gathered_of self.now).z }
    {
        match &self.z {
            Some(z) => Some(z.len()),
            None => None,
        }
    }

    /// How many names there are, where they were given.
    fn count_names(&self) -> Option<usize>
        ensures { result ≡ count_of (gathered_of self.now).names }
    {
        match &self.names {
            Some(names) => Some(names.len()),
            None => None,
        }
    }

    /// Takes the value of a key in the word at a place, in a search over this quantity.
    fn set(&mut self, place: usize, by: By, key: FlashKey, value: &[u8]) -> Result<(), WordFault>
        ensures { Answers (λ _. gathered_of self.new) (with_value place by (gathered_of self.old) key value.now) result }
    {
        match key {
            FlashKey::Needed(key) => self.set_needed(place, by, key, value),
            FlashKey::Kappa => {
                self.edition = Some(read_edition(place, value)?);
                Ok(())
            }
        }
    }

    /// Takes the value of a key that must stand in the word at a place, in a search over this quantity.
    fn set_needed(&mut self, place: usize, by: By, key: Key, value: &[u8]) -> Result<(), WordFault>
        ensures { Answers (λ _. gathered_of self.new) (with_needed place by (gathered_of self.old) key value.now) result }
    {
        match key {
            Key::T => self.t = Some(read_quantity(place, By::Temperature, value)?),
            Key::P => self.p = Some(read_quantity(place, By::Pressure, value)?),
            Key::Lo => self.lo = Some(self.lower_end(place, by, value)?),
            Key::Hi => self.hi = Some(self.upper_end(place, by, value)?),
            Key::Width => self.width = Some(read_width(place, by, value)?),
            Key::Z => self.z = Some(self.feed(place, value)?),
            Key::Names => self.names = Some(self.called(place, value)?),
            Key::Tol => self.tol = Some(read_number(place, 0, 128, 1 << 20, value)?),
            Key::Budget => self.budget = Some(read_number(place, 0, 1, 10_000_000, value)?),
        }
        Ok(())
    }

    /// The lower end in the word at a place, which lies below an upper end that stands.
    fn lower_end(&self, place: usize, by: By, value: &[u8]) -> Result<u32, WordFault>
        ensures { Answers (λ n. n) (lo_of place by (gathered_of self.now) value.now) result }
    {
        let lo = read_quantity(place, by, value)?;
        if !is_ordered(Some(lo), self.hi) {
            return Err(WordFault::Range(place));
        }
        Ok(lo)
    }

    /// The upper end in the word at a place, which lies above a lower end that stands.
    fn upper_end(&self, place: usize, by: By, value: &[u8]) -> Result<u32, WordFault>
        ensures { Answers (λ n. n) (hi_of place by (gathered_of self.now) value.now) result }
    {
        let hi = read_quantity(place, by, value)?;
        if !is_ordered(self.lo, Some(hi)) {
            return Err(WordFault::Range(place));
        }
        Ok(hi)
    }

    /// The feed in the word at a place, as long as the list of names where that stands.
    fn feed(&self, place: usize, value: &[u8]) -> Result<ArrayVec<u32, SLOTS>, WordFault>
        ensures { Answers (λ z. z.items) (feed_of place (gathered_of self.now) value.now) result }
    {
        let z = read_parts(place, value)?;
        if !is_same_count(z.len(), self.count_names()) {
            return Err(WordFault::Count(place));
        }
        Ok(z)
    }

    /// The names in the word at a place, as many as the feed has parts where that stands.
    fn called(&self, place: usize, value: &[u8]) -> Result<ArrayVec<Name, SLOTS>, WordFault>
        ensures { Answers (λ names. map text_of names.items) (called_of place (gathered_of self.now) value.now) result }
    {
        let names = read_names(place, value)?;
        if !is_same_count(names.len(), self.count_parts()) {
            return Err(WordFault::Count(place));
        }
        Ok(names)
    }

    /// The job of a command with all that is asked, or the first of its keys that didn't stand.
    pub fn finish(self, command: Command) -> Result<Job, WordFault>
        requires { IsKept (searched_by command) (gathered_of self) }
        ensures { Answers plain_job (job_from command (gathered_of self)) result }
    {
        match command {
            Command::Tp => Ok(Job::Tp(self.flash()?)),
            Command::Cert => Ok(Job::Cert(self.flash()?)),
            Command::Check => Ok(Job::Check),
            Command::Edge(by, side) => Ok(Job::Edge(self.edge(by, side)?)),
        }
    }

    /// All that is asked of a search for a phase boundary, or the first key that didn't stand.
    fn edge(self, by: By, side: Side) -> Result<EdgeWords, WordFault>
        requires { IsKept by (gathered_of self) }
        ensures { Answers edge_asked_by (edge_of by side (gathered_of self)) result }
    {
        let fixed = self.fixed(by)?;
        let Some(lo) = self.lo else {
            return Err(WordFault::Missing(Key::Lo));
        };
        let Some(hi) = self.hi else {
            return Err(WordFault::Missing(Key::Hi));
        };
        let Some(width) = self.width else {
            return Err(WordFault::Missing(Key::Width));
        };
        let base = self.flash_there(by, fixed, lo)?;
        Ok(EdgeWords {
            base,
            by,
            side,
            lo,
            hi,
            width,
        })
    }

    /// The quantity that a search doesn't go over.
    fn fixed(&self, by: By) -> Result<u32, WordFault>
        ensures { Answers (λ n. n) (fixed_of by (gathered_of self.now)) result }
    {
        match by {
            By::Pressure => self.t.ok_or(WordFault::Missing(Key::T)),
            By::Temperature => self.p.ok_or(WordFault::Missing(Key::P)),
        }
    }

    /// What is asked of a flash at a place of a search, with this other quantity.
    fn flash_there(self, by: By, fixed: u32, place: u32) -> Result<FlashWords, WordFault>
        requires kept { IsKept by (gathered_of self) }
        requires fixed { fixed_of by (gathered_of self) ≡ Ok fixed }
        requires place { (gathered_of self).lo ≡ Some place }
        ensures value { Answers asked_by (asked_there by fixed place (gathered_of self)) result }
        ensures starts { IfOk result (λ base. quantity by base.t base.p ≡ place) }
    {
        match by {
            By::Pressure => self.flash_at(fixed, place),
            By::Temperature => self.flash_at(place, fixed),
        }
    }

    /// All that is asked of a flash, or the first key that didn't stand.
    fn flash(self) -> Result<FlashWords, WordFault>
        requires { KeepsFlash (gathered_of self) }
        ensures { Answers asked_by (asked_of (gathered_of self)) result }
    {
        let Some(t) = self.t else {
            return Err(WordFault::Missing(Key::T));
        };
        let Some(p) = self.p else {
            return Err(WordFault::Missing(Key::P));
        };
        self.flash_at(t, p)
    }

    /// What is asked of a flash at this temperature and pressure, or the first of its further keys that didn't stand.
    fn flash_at(self, t: u32, p: u32) -> Result<FlashWords, WordFault>
        requires kept { KeepsFlash (gathered_of self) }
        requires t { IsTrue (is_within (least Temperature) (greatest Temperature) t) }
        requires p { IsTrue (is_within (least Pressure) (greatest Pressure) p) }
        ensures value { Answers asked_by (asked_at t p (gathered_of self)) result }
        ensures at { IfOk result (λ words. (words.t ≡ t) × (words.p ≡ p)) }
    {
        let Given {
            z,
            names,
            tol,
            budget,
            edition,
            ..
        } = self;
        let Some(z) = z else {
            return Err(WordFault::Missing(Key::Z));
        };
        let Some(names) = names else {
            return Err(WordFault::Missing(Key::Names));
        };
        let Some(tol) = tol else {
            return Err(WordFault::Missing(Key::Tol));
        };
        let Some(budget) = budget else {
            return Err(WordFault::Missing(Key::Budget));
        };
        Ok(FlashWords {
            t,
            p,
            z,
            names,
            tol,
            budget,
            edition: edition.unwrap_or(Edition::Y1976),
        })
    }
}

/// As many as there are of the others, where those were given.
fn is_same_count(count: usize, others: Option<usize>) -> bool
    ensures { result ≡ is_as_many count others }
{
    match others {
        Some(n) => count == n,
        None => true,
    }
}

/// The lower end is below the upper, where both were given.
fn is_ordered(lo: Option<u32>, hi: Option<u32>) -> bool
    ensures { result ≡ are_ordered lo hi }
{
    match (lo, hi) {
        (Some(lo), Some(hi)) => lo < hi,
        _ => true,
    }
}
