//! What a generated line asks for.

/// The part of an allocation that doesn't depend on the lines before it: its heap, its size in bytes and its alignment.
#[derive(Clone, Copy, Drop)]
pub(crate) struct Request {
    pub(crate) heap: u8,
    pub(crate) size: u16,
    pub(crate) align: u8,
}

/// A generated operation.
#[derive(Clone, Copy, Drop)]
pub(crate) enum Operation {
    Allocate {
        thread: u8,
        name: u32,
        request: Request,
    },
    Free {
        thread: u8,
        name: u32,
    },
    Tick {
        epoch: u32,
    },
    /// A pass of the scavenger, after which a phase begins.
    Pass,
}

/// An allocation that no line has freed yet: its trace name, its thread, and the phase of its line.
#[derive(Clone, Copy, Drop)]
pub(crate) struct Allocated {
    pub(crate) name: u32,
    pub(crate) thread: u8,
    pub(crate) phase: u32,
}
