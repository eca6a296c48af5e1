//! The indexes of the heaps, where one thread alone asks them.
ghost use Rattle.std.specs.Prelude.{◌≡◌};
ghost use Rattle.pas_large.specs.Doors.{found_in, cut_in, added_in};

use crate::LargeIndex;
use crate::door::Door;
use pas_profile::Range;

/// A door to indexes that nobody else asks meanwhile: the one at place h is that of heap h. It tells what they hold.
#[derive(Drop)]
pub struct PlainDoor<'a> {
    indexes: &'a mut [LargeIndex],
}

impl<'a> PlainDoor<'a> {
    /// A door to these indexes.
    pub fn new(indexes: &'a mut [LargeIndex]) -> PlainDoor<'a>
        ensures same_reference { result.indexes.ghost_name ≡ indexes.entry.ghost_name }
        ensures indexes { result.indexes.now ≡ indexes.old }
    {
        PlainDoor { indexes }
    }
}

impl Door for PlainDoor<'_> {
    ghost use Rattle.std.specs.Prelude.{◌≡◌};
    ghost use Rattle.pas_large.specs.Doors.{found_in, cut_in, added_in};

    ghost answers = { λ before after heap pages found. (after.indexes.ghost_name ≡ before.indexes.ghost_name) × (found ≡ found_in before.indexes.now heap pages) × (after.indexes.now ≡ cut_in before.indexes.now heap pages) };

    ghost settles = { λ before after heap range. (after.indexes.ghost_name ≡ before.indexes.ghost_name) × (after.indexes.now ≡ added_in before.indexes.now heap range) };

    fn find(&mut self, heap: u8, pages: u32) -> Option<u32> {
        let place = heap as usize;
        if place >= self.indexes.len() {
            return None;
        }
        self.indexes[place].take_lowest(pages)
    }

    fn settle(&mut self, heap: u8, range: Range) {
        let place = heap as usize;
        if place < self.indexes.len() {
            let _ = self.indexes[place].insert(range);
        }
    }
}
