//! What a log holds of a free.

use crate::name::Name;

/// A free in a log: the name of the block, and the room that the free named, or 0 where it named none.
#[derive(Clone, Copy, Default, PartialEq, Eq, Drop)]
pub struct Entry {
    pub name: Name,
    pub room: u32,
}
