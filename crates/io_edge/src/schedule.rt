//! Which calls of an end in memory fail.

ghost use Rattle.std.specs.Prelude.{◌≡◌, ◌↔◌, IsTrue, Contains};
ghost use Rattle.io_edge.specs.InMemory.{next_call};

/// The calls of an end in memory, and which of them fail.
#[derive(Drop)]
pub struct Schedule {
    pub fails: Vec<u64>,
    pub calls: u64,
}

impl Schedule {
    /// Counts a call, and says whether it is to fail.
    pub fn is_next_due(&mut self) -> bool
        ensures due { IsTrue result ↔ Contains self.old.fails.items (next_call self.old.calls) }
        ensures calls { self.new.calls ≡ next_call self.old.calls }
        ensures fails { self.new.fails ≡ self.old.fails }
    {
        self.calls = self.calls.saturating_add(1);
        self.fails.contains(&self.calls)
    }
}
