//! What a check comes to.

/// The transcript is accepted; or the line of this number, from 1 on, is the first that isn't allowed at its place.
#[derive(Clone, Copy, PartialEq, Eq, Drop)]
pub enum Verdict {
    Yes,
    No(u32),
}
