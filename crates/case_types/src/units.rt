//! Units of work.

ghost use Rattle.std.specs.Prelude.{◌≡◌, ◌+◌, ◌<◌, ◌≤◌, ◌↔◌, IsTrue};

/// How much work was done, and how much may be.
///
/// A unit is one halving of a cell, one refutation of a plane, or one pivot of the linear program.
#[derive(Clone, Copy, Debug, PartialEq, Eq)]
pub struct Units {
    pub spent: u32,
    /// At most 10,000,000.
    pub budget: u32,
    pub ghost within: { spent ≤ budget },
    pub ghost in_range: { budget ≤ 10000000 },
}

impl Units {
    /// No work yet.
    pub fn new(budget: u32) -> Units
        requires { budget ≤ 10000000 }
        ensures budget { result.budget ≡ budget }
        ensures spent { result.spent ≡ 0 }
    {
        Units { spent: 0, budget }
    }

    /// Whether no unit is left.
    pub fn is_spent(&self) -> bool
        ensures { IsTrue result ↔ (self.now.spent ≡ self.now.budget) }
    {
        self.spent == self.budget
    }

    /// Spends a unit.
    pub fn spend(&mut self)
        requires { self.old.spent < self.old.budget }
        ensures budget { self.new.budget ≡ self.old.budget }
        ensures spent { self.new.spent ≡ self.old.spent + 1 }
    {
        self.spent += 1;
    }
}
