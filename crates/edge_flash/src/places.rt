//! Places that a search may ask.

ghost use Rattle.std.specs.Prelude.{ℕ, ◌≤◌, ◌≡◌, ◌↔◌, IfOk};

use crate::classed::Classed;
use case_types::Memory;

/// Places of which it is said what the feed is there.
pub trait Classify {
    ghost use Rattle.edge_flash.specs.declared.classed.Classed.{Classed};
    ghost use Rattle.edge_flash.specs.Places.{StandsAt};

    /// The least place that may be asked.
    ghost least: { Self → ℕ };

    /// The greatest place that may be asked.
    ghost greatest: { Self → ℕ };

    /// What may be said of a place.
    ghost may_say: { Self → ℕ → Classed → Type 0 };

    /// Says what the feed is at a place. An end that is answered carries the place that was asked.
    fn classify(&mut self, at: u32) -> Result<Classed, Memory>
        requires low { least self.old ≤ at }
        requires high { at ≤ greatest self.old }
        ensures said { IfOk result (λ classed. may_say self.old at classed) }
        ensures stands { IfOk result (StandsAt at) }
        ensures least { least self.new ≡ least self.old }
        ensures greatest { greatest self.new ≡ greatest self.old }
        ensures kept { (place : ℕ) (classed : Classed) → may_say self.new place classed ↔ may_say self.old place classed };
}
