//! Guards.

use crate::name::Block;

/// A block that stands between two pages that aren't backed, which are held whole.
#[derive(Clone, Copy, PartialEq, Eq, Drop)]
pub struct Guard {
    pub low: u32,
    pub high: u32,
    pub block: Block,
}

/// A guard that is up, and its keeper, which holds the two pages.
#[derive(Clone, Copy, PartialEq, Eq, Drop)]
pub struct Raised {
    pub keeper: u8,
    pub guard: Guard,
}
