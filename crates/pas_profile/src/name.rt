//! How blocks are named, and where they lie.

use crate::limits::{GRAIN_BYTES, PAGE_BYTES};

/// A place in the region, in bytes from its start.
#[derive(Clone, Copy, Default, PartialEq, Eq, Drop)]
pub struct Address(pub u32);

/// The name of a block: its address, and its turn, which is the number of blocks that were given at that address before.
///
/// The turn makes a name unique, so that a late second free of one block can't end another.
#[derive(Clone, Copy, Default, PartialEq, Eq, Drop)]
pub struct Name {
    pub address: Address,
    pub turn: u64,
}

/// A block: its name, the bytes that it really has (its room, a multiple of 16), and its heap.
#[derive(Clone, Copy, PartialEq, Eq, Drop)]
pub struct Block {
    pub name: Name,
    pub room: u32,
    pub heap: u8,
}

impl Address {
    ghost use Rattle.std.specs.Prelude.{◌≡◌, ◌/◌};

    /// The page of the address.
    #[inline]
    pub fn page(&self) -> u32
        ensures { result ≡ self.now.0 / 4096 }
    {
        self.0 / PAGE_BYTES
    }

    /// The grain of the address, by its number in the region: `page * 256` and its number in the page.
    #[inline]
    pub fn grain(&self) -> u32
        ensures { result ≡ self.now.0 / 16 }
    {
        self.0 / GRAIN_BYTES
    }
}

impl Block {
    ghost use Rattle.std.specs.Prelude.{◌≡◌};
    ghost use Rattle.pas_profile.specs.Blocks.{length_of};

    /// The number of its grains.
    #[inline]
    pub fn grains(&self) -> u32
        ensures { result ≡ length_of self.now }
    {
        self.room / GRAIN_BYTES
    }
}
