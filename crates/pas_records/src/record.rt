//! What a replay says: events, answers that are no events, and marks.

use pas_profile::{Event, Name};

/// An answer that is no event. Names are those of the trace, epochs below 2^40.
#[derive(Clone, Copy, PartialEq, Eq, Drop)]
pub enum Said {
    /// No page can serve the request of this name.
    NoSpace { name: u32 },
    /// The request of this name found this page in some actor's hands.
    Held { page: u32, name: u32 },
    /// The page of the block's address isn't one of the region.
    Outside { block: Name },
    /// The block's address is no multiple of 16.
    Unaligned { block: Name },
    /// What is freed or reallocated stands for nothing, as its request was refused. The name is that of the free, or the new one.
    Skipped { name: u32 },
    /// The block suits the request of this name for another size, and is kept: the name stands for it too.
    Kept { block: Name, name: u32 },
    /// The epoch after a tick.
    Tick(u64),
    /// A pass, and the epoch that it read.
    Pass(u64),
    /// A hinted page wasn't backed.
    Bare(u32),
    /// A hinted page was empty, but not long enough.
    Young { page: u32, stamp: u64 },
    /// A free word of a hinted page was read as not all ones.
    InUse { page: u32, word: u8, value: u64 },
    /// The right of a hinted page was in other hands.
    NotOffered(u32),
    /// The cache of an idle thread was stopped.
    Stopped(u8),
    /// The block that was just given for this name stands between these two pages, which aren't backed as long as the guard is up.
    Guarded { low: u32, high: u32, name: u32 },
    /// The guard on these two pages was lowered.
    Lowered { low: u32, high: u32 },
}

/// One line of a transcript.
#[derive(Clone, Copy, PartialEq, Eq, Drop)]
pub enum Record {
    Event(Event),
    /// An answer to this actor.
    Said(u8, Said),
    /// The start of a phase, from 2 on.
    Phase(u32),
    /// The end of the last phase, before the final stops.
    Close,
}
