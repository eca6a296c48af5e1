//! The log.

use arrayvec::ArrayVec;
use pas_profile::limits::MOST_LOGGED;
use pas_profile::{Entry, Name};
use std::marker::Model;

/// At most 64 entries of blocks that were freed, in the order in which they came. It takes no memory.
#[derive(Drop)]
pub struct FreeLog {
    entries: ArrayVec<Entry, MOST_LOGGED>,
}

impl Model for FreeLog {
    ghost use Rattle.std.specs.Prelude.{List};
    ghost use Rattle.pas_profile.specs.declared.entry.Entry.{Entry as TheEntry};

    ghost Value = { List TheEntry };

    ghost view = { λ log. log.entries.items };
}

impl FreeLog {
    ghost use Rattle.std.specs.Prelude.{◌≡◌, ◌++◌, ◌∷◌, ◌<◌, ◌↔◌, [], IsTrue, true, false, length};
    ghost use Rattle.pas_profile.specs.Entries.{entry_of, sized_entry};

    /// An empty log.
    pub fn new() -> FreeLog
        ensures { result ≡ [] }
    {
        FreeLog {
            entries: ArrayVec::new(),
        }
    }

    /// The number of entries, at most 64.
    pub fn len(&self) -> u8
        ensures { result ≡ length self.now }
    {
        self.entries.len() as u8
    }

    /// Adds an entry of the name at the end. False exactly where 64 are there, and the log is unchanged then.
    pub fn add(&mut self, name: Name) -> bool
        ensures room { IsTrue result ↔ (length self.old < 64) }
        ensures added { result ≡ true → self.new ≡ self.old ++ entry_of name ∷ [] }
        ensures full { result ≡ false → self.new ≡ self.old }
    {
        self.push(Entry { name, room: 0 })
    }

    /// Adds an entry of the name with this room at the end. False exactly where 64 are there, and the log is unchanged then.
    pub fn add_sized(&mut self, name: Name, room: u32) -> bool
        ensures room { IsTrue result ↔ (length self.old < 64) }
        ensures added { result ≡ true → self.new ≡ self.old ++ sized_entry name room ∷ [] }
        ensures full { result ≡ false → self.new ≡ self.old }
    {
        self.push(Entry { name, room })
    }

    /// Adds the entry at the end, where fewer than 64 are there.
    pub fn push(&mut self, entry: Entry) -> bool
        ensures room { IsTrue result ↔ (length self.old < 64) }
        ensures added { result ≡ true → self.new ≡ self.old ++ entry ∷ [] }
        ensures full { result ≡ false → self.new ≡ self.old }
    {
        if self.entries.is_full() {
            return false;
        }
        self.entries.push(entry);
        true
    }

    /// The entries in order.
    pub(crate) fn as_slice(&self) -> &[Entry]
        ensures { result.now ≡ self.now }
    {
        self.entries.as_slice()
    }

    /// Drops all entries.
    pub(crate) fn clear(&mut self)
        ensures { self.new ≡ [] }
    {
        self.entries.clear();
    }
}
