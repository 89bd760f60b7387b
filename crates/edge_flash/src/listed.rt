//! Places of which a list says what the feed is there.

ghost use Rattle.std.specs.Prelude.{◌≡◌, ◌^◌};
ghost use Rattle.edge_flash.specs.Listed.{first_at};
ghost use Rattle.edge_flash.specs.Places.{StandsAt};

use crate::classed::Classed;
use crate::places::Classify;
use case_types::{EdgeEnd, Memory, Outcome};

/// Places of which a list says what the feed is there, and those that were asked, in their order.
#[derive(Drop)]
pub struct Listed<'a> {
    pub ends: &'a [EdgeEnd],
    pub asked: Vec<u32>,
}

impl Classify for Listed<'_> {
    ghost least = { λ s. 0 };

    ghost greatest = { λ s. 2 ^ 32 };

    ghost may_say = { λ s place classed. classed ≡ first_at s.ends.now place };

    fn classify(&mut self, at: u32) -> Result<Classed, Memory> {
        self.asked.push(at)?;
        Ok(said_of(self.ends, at))
    }
}

/// The first end at a place; where there is none, that a budget of no units is spent.
#[tactic(auto, unfolding(crate::specs::Listed::first_at))]
fn said_of(ends: &[EdgeEnd], at: u32) -> Classed
    ensures said { result ≡ first_at ends.now at }
    ensures stands { StandsAt at result }
{
    match ends {
        [] => Classed::Open {
            outcome: Outcome::Spent,
            units: 0,
        },
        [end, ..] if end.at == at => Classed::End(*end),
        [_, others @ ..] => said_of(others, at),
    }
}
