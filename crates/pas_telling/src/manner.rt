//! How a trace is replayed.

/// The order in which the operations of a trace are performed.
#[derive(Clone, Copy, Drop)]
pub enum Manner {
    /// One after the other, in the order of the text.
    InOrder,
    /// Each thread's operations of a phase in a thread of their own.
    OnThreads,
}
