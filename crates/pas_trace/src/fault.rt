//! Why a text is no trace.

use thiserror::Error;

/// The reasons, in the order in which they are tried on a line.
#[derive(Clone, Copy, Debug, PartialEq, Eq, Drop)]
pub enum Reason {
    BadHeader = 1,
    BadWord = 2,
    BadNumber = 3,
    BadThread = 4,
    BadHeap = 5,
    BadSize = 6,
    BadAlign = 7,
    NameTaken = 8,
    NameUnknown = 9,
    TooEarly = 10,
    TooManyOps = 11,
    TraceTooLarge = 12,
}

/// The first fault of a text: the number of its lowest faulty line, from 1, and the first reason that applies there.
#[derive(Clone, Copy, Debug, PartialEq, Eq, Drop)]
pub struct TraceFault {
    pub line: u32,
    pub reason: Reason,
}

/// Why a trace wasn't read.
#[derive(Clone, Copy, Debug, PartialEq, Eq, Drop, Error)]
pub enum ReadFault {
    #[error("line {line}: {reason:?}", line = .0.line, reason = .0.reason)]
    Trace(TraceFault),
    #[error("out of memory")]
    NoMemory,
}
