//! What is chosen of a table.

use arrayvec::ArrayVec;
use case_types::SLOTS;

/// For each live name its index in the list, the place of its component, and its part of the feed.
#[derive(Drop)]
pub struct Chosen {
    pub live: ArrayVec<u8, SLOTS>,
    pub places: ArrayVec<u32, SLOTS>,
    pub parts: ArrayVec<u32, SLOTS>,
    /// The sum of the parts.
    pub total: u32,
}

impl Chosen {
    ghost use Rattle.std.specs.Prelude.{◌≡◌, ◌<◌, ◌≤◌, ◌+◌, length};
    ghost use Rattle.component_table.specs.Choosing.{none_chosen, with_part, IsLive};
    ghost use Rattle.component_table.specs.Chosens.{plain_chosen};

    /// Nothing yet.
    pub fn new() -> Chosen
        ensures exact { plain_chosen result ≡ none_chosen }
        ensures total { result.total ≡ 0 }
    {
        Chosen {
            live: ArrayVec::new(),
            places: ArrayVec::new(),
            parts: ArrayVec::new(),
            total: 0,
        }
    }

    /// Takes the component at a place for the name at an index, unless it has no part of the feed.
    pub fn take(&mut self, i: u8, place: u32, part: u32)
        requires live { IsLive (plain_chosen self.old) self.old.total }
        requires room { length self.old.parts.items < 4 }
        requires total { self.old.total + part ≤ 1048576 }
        ensures exact { plain_chosen self.new ≡ with_part i (plain_chosen self.old) place part }
        ensures live { IsLive (plain_chosen self.new) self.new.total }
        ensures total { self.new.total ≡ self.old.total + part }
        ensures few { length self.new.parts.items ≤ length self.old.parts.items + 1 }
    {
        if part != 0 {
            self.live.push(i);
            self.places.push(place);
            self.parts.push(part);
            self.total += part;
        }
    }
}
