//! The indexes of the heaps, where threads share them.
use crate::LargeIndex;
use crate::door::Door;
use pas_profile::Range;
use std::sync::{Mutex, Wait};

/// A door to indexes that threads share, each under a lock: the one at place h is that of heap h. It tells nothing of what they hold, and its calls
/// may wait.
#[derive(Drop)]
pub struct SharedDoor<'a, R: Wait> {
    rt: &'a R,
    indexes: &'a [Mutex<LargeIndex>],
}

impl<'a, R: Wait> SharedDoor<'a, R> {
    /// A door to these indexes.
    pub fn new(rt: &'a R, indexes: &'a [Mutex<LargeIndex>]) -> SharedDoor<'a, R> {
        SharedDoor { rt, indexes }
    }
}

impl<R: Wait> Door for SharedDoor<'_, R> {
    ghost use Rattle.std.specs.Prelude.{⊤};

    ghost answers = { λ before after heap pages found. ⊤ };

    ghost settles = { λ before after heap range. ⊤ };

    fn find(&mut self, heap: u8, pages: u32) -> Option<u32> {
        let index = self.indexes.get(heap as usize)?;
        index.lock(self.rt).take_lowest(pages)
    }

    fn settle(&mut self, heap: u8, range: Range) {
        if let Some(index) = self.indexes.get(heap as usize) {
            let _ = index.lock(self.rt).insert(range);
        }
    }
}
