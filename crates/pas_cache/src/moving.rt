//! What becomes of a block whose size changes.

use pas_profile::Block;

/// What a block became that was asked to have another size.
#[derive(Clone, Copy, PartialEq, Eq, Drop)]
pub enum Moved {
    /// It suits as it is.
    Kept,
    /// This block stands in its place.
    New(Block),
}
