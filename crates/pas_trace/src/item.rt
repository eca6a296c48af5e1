//! What the lines of a trace say.

use crate::plan::Chore;
use std::mem::size_of;

/// A request for so many bytes under the trace name, from the heap, at a multiple of the alignment.
#[derive(Clone, Copy, PartialEq, Eq, Drop)]
pub struct Request {
    pub name: u32,
    pub heap: u64,
    pub size: u64,
    pub align: u64,
}

/// What an operation of a thread asks for, with its numbers as they are written.
#[derive(Clone, Copy, PartialEq, Eq, Drop)]
pub enum Wish {
    /// A block of so many bytes under the trace name, from the heap, at a multiple of the alignment.
    Asks {
        name: u32,
        heap: u64,
        size: u64,
        align: u64,
    },
    /// The end of the block that has the trace name.
    Frees {
        name: u32,
    },
    /// The same, where the block has the room of a request for so many bytes at a multiple of the alignment.
    FreesSized {
        name: u32,
        size: u64,
        align: u64,
    },
    /// The end of the block with this address and turn.
    FreesRaw {
        address: u32,
        turn: u64,
    },
    /// The same, where the block has the room of such a request.
    FreesRawSized {
        address: u32,
        turn: u64,
        size: u64,
        align: u64,
    },
    /// The block that has the old trace name with another size and alignment, under the name.
    Remakes {
        name: u32,
        old: u32,
        size: u64,
        align: u64,
    },
    /// That the frees are passed on which the thread has saved.
    Flushes,
    /// That the thread stops.
    Stops,
}

/// What a line from the second on says, in 48 bytes.
#[derive(Clone, Copy, PartialEq, Eq, Drop)]
pub enum Item {
    /// A line without a word, or a comment.
    Blank,
    /// This heap is shared.
    Shares(u64),
    /// Of each thread's requests for whole pages one in so many is guarded. None where the line names no number.
    Guards(Option<u64>),
    /// The next phase begins.
    NextPhase,
    /// An operation of the thread.
    Operates { thread: u64, wish: Wish },
    /// An operation of the scavenger.
    Scavenges(Chore),
}

const _: () = prove!(size_of::<Item>() == 48);
