//! The steps of an actor.

use pas_profile::{Block, Directory, Name, Word};

/// One step of an actor: one load or one exchange on one word of the region.
#[derive(Clone, Copy, PartialEq, Eq, Drop)]
pub enum Step {
    /// A load of any word.
    Look { word: Word },
    /// Writes the page's deed where it has none, and then has the page's right.
    Deed { page: u32, directory: Directory },
    /// Backs the page.
    Back { page: u32 },
    /// Clears the mask's bits in a free word (0 to 3) of the page. The actor holds the grains that were free.
    Take { page: u32, word: u8, mask: u64 },
    /// Sets the mask's bits in a free word of the page. The grains are free.
    Put { page: u32, word: u8, mask: u64 },
    /// Makes the block live. Its grains are no longer held.
    Give { block: Block },
    /// Ends the block of this name where it lives with just so many grains, and then holds them.
    End { name: Name, guess: u32 },
    /// Ends the block of this name where it lives with just this room, and then holds its grains.
    EndSized { name: Name, room: u32 },
    /// Clears the page's bit in the eligible word of its directory. The actor has the right where the bit was set.
    TakeRight { page: u32, directory: Directory },
    /// Sets the page's bit in the eligible word of its directory. The right is the actor's no longer.
    Offer { page: u32, directory: Directory },
    /// Sets the page's parked bit. The right is the actor's no longer, and it owes a look at each free word of the page.
    Park { page: u32 },
    /// Clears the page's parked bit. The actor has the right where the bit was set.
    Unpark { page: u32 },
    /// Raises the page's stamp to the newest epoch that the actor read.
    Stamp { page: u32 },
    /// Sets the page's empty bit: the scavenger may look at the page.
    Hint { page: u32 },
    /// Raises the epoch to at least this.
    Tick { epoch: u64 },
    /// Ends the page's backing.
    Unback { page: u32 },
    /// Clears the page's empty bit. The actor examines the page where the bit was set.
    Unhint { page: u32 },
}

/// A step that was made, with its answer: the word's value before it.
#[derive(Clone, Copy, PartialEq, Eq, Drop)]
pub struct Made {
    pub step: Step,
    pub answer: u64,
}
