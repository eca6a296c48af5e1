//! What an actor does to the allocator's machine, and what it is refused.
ghost use Rattle.std.specs.Prelude.{◌≡◌};
ghost use Rattle.pas_profile.specs.Refusals.{why_number, fault_number, no_room_number};

use crate::directory::Directory;
use crate::name::{Block, Name};

/// Why the end of a name was refused: its block had ended before, no such block lives, or it lives with another room than the one that was named.
#[derive(Clone, Copy, PartialEq, Eq, Drop)]
pub enum Why {
    Ended,
    NoBlock,
    SizeDiffers(u32),
}

/// An event of the machine. Actor 0 is the scavenger, the threads are the actors from 1 on.
#[derive(Clone, Copy, PartialEq, Eq, Drop)]
pub enum Event {
    /// The page has this directory from now on.
    Deed {
        actor: u8,
        page: u32,
        directory: Directory,
    },
    /// The page is backed by memory.
    Back {
        actor: u8,
        page: u32,
    },
    /// The page's memory went back to the system, by a scavenger that knew this epoch.
    Unback {
        actor: u8,
        page: u32,
        epoch: u64,
    },
    /// The block lives.
    Give {
        actor: u8,
        block: Block,
    },
    /// The block ended, by an actor that knew this epoch.
    End {
        actor: u8,
        name: Name,
        epoch: u64,
    },
    /// The end of this name was refused.
    Reject {
        actor: u8,
        name: Name,
        why: Why,
    },
}

/// Why a request got no block: no page can serve it, or this page was in some actor's hands.
#[derive(Clone, Copy, Debug, PartialEq, Eq, Drop)]
pub enum NoRoom {
    NoSpace,
    Held(u32),
}

/// Why a free was refused before any step: the page isn't one of the region, or the address is no multiple of 16.
#[derive(Clone, Copy, Debug, PartialEq, Eq, Drop)]
pub enum FreeFault {
    Outside = 1,
    Unaligned = 2,
}

/// What a scavenger's pass came to on one hinted page.
#[derive(Clone, Copy, PartialEq, Eq, Drop)]
pub enum Outcome {
    Unbacked,
    Bare,
    Young(u64),
    InUse(u8, u64),
    NotOffered,
}

/// Pages that follow each other, from the first on.
#[derive(Clone, Copy, PartialEq, Eq, Drop)]
pub struct Range {
    pub first: u32,
    pub pages: u32,
}

impl Why {
    /// The number of the reason: 1 for a block that ended, 2 for none, 3 for one with another room.
    pub fn number(&self) -> u8
        ensures { result ≡ why_number self.now }
    {
        match self {
            Why::Ended => 1,
            Why::NoBlock => 2,
            Why::SizeDiffers(_) => 3,
        }
    }
}

impl NoRoom {
    /// The number of the reason: 1 for no space, 2 for a page in an actor's hands.
    pub fn number(&self) -> u8
        ensures { result ≡ no_room_number self.now }
    {
        match self {
            NoRoom::NoSpace => 1,
            NoRoom::Held(_) => 2,
        }
    }
}

impl FreeFault {
    /// The number of the reason: 1 for a page outside of the region, 2 for an address that is no multiple of 16.
    pub fn number(&self) -> u8
        ensures { result ≡ fault_number self.now }
    {
        *self as u8
    }
}
