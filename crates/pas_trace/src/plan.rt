//! The plan of a trace.

use pas_profile::{Name, Profile};
use std::mem::size_of;

/// What an operation asks for, in 24 bytes. Names of allocations are the trace's own numbers, from 1 to 1,000,000; sizes, alignments and rooms
/// are in bytes. A request for whole pages that is guarded names the actor that keeps its guard. A free that names a room ends the block only
/// where it has this room. A block is reallocated in its own heap.
#[derive(Clone, Copy, PartialEq, Eq, Drop)]
pub enum What {
    Alloc {
        name: u32,
        heap: u8,
        size: u32,
        align: u32,
    },
    Guarded {
        keeper: u8,
        name: u32,
        heap: u8,
        size: u32,
        align: u32,
    },
    Free {
        name: u32,
    },
    FreeSized {
        name: u32,
        room: u32,
    },
    Raw {
        block: Name,
    },
    RawSized {
        room: u32,
        block: Name,
    },
    Remake {
        name: u32,
        old: u32,
        heap: u8,
        size: u32,
        align: u32,
    },
    Flush,
    Stop,
    Tick(u64),
    Pass,
    Idle(u64),
}

/// An operation, in 32 bytes: its line, from 1, its actor (0 for ticks, passes and idle operations), and what it asks for.
#[derive(Clone, Copy, PartialEq, Eq, Drop)]
pub struct Op {
    pub line: u32,
    pub actor: u8,
    pub what: What,
}

/// What an operation asks a thread for: what `What` has, without the chores of the scavenger. A free may name the block's room.
#[derive(Clone, Copy, PartialEq, Eq, Drop)]
pub enum Task {
    Request {
        name: u32,
        heap: u8,
        size: u32,
        align: u32,
    },
    Guarded {
        keeper: u8,
        name: u32,
        heap: u8,
        size: u32,
        align: u32,
    },
    Free {
        name: u32,
        room: Option<u32>,
    },
    FreeRaw {
        block: Name,
        room: Option<u32>,
    },
    Remake {
        name: u32,
        old: u32,
        heap: u8,
        size: u32,
        align: u32,
    },
    Flush,
    Stop,
}

/// What an operation asks the scavenger for.
#[derive(Clone, Copy, PartialEq, Eq, Drop)]
pub enum Chore {
    Tick(u64),
    Pass,
    Idle(u64),
}

/// What an operation asks for, by who acts: its thread, or the scavenger.
#[derive(Clone, Copy, PartialEq, Eq, Drop)]
pub enum Work {
    Own(Task),
    Chore(Chore),
}

const _: () = prove!(size_of::<What>() == 24);

const _: () = prove!(size_of::<Op>() == 32);

/// The operations of one phase, in the order of the text.
#[derive(Drop)]
pub struct Phase {
    pub(crate) ops: Vec<Op>,
}

/// The phases of a trace, one at least. A phase may be empty.
#[derive(Drop)]
pub struct Phases {
    pub(crate) phases: Vec<Phase>,
}

/// How many records each actor's operations may make, by actor; of keepers, behind the threads of a guarded trace, how many events.
#[derive(Drop)]
pub struct Bounds {
    pub(crate) bounds: Vec<u32>,
}

/// The plan of a trace, whose text is of this version. Of each thread's requests for whole pages every `guard`th is guarded, and none where that is 0.
/// The bounds go up to the last keeper in a guarded trace, and to the last thread in another. `total` bounds the records of all actors, and each name
/// that a request asks for is below `names_limit`.
#[derive(Drop)]
pub struct Plan {
    pub version: u8,
    pub profile: Profile,
    pub guard: u32,
    pub phases: Phases,
    pub bounds: Bounds,
    pub total: u32,
    pub names_limit: usize,
}

impl Op {
    ghost use Rattle.std.specs.Prelude.{◌≡◌};
    ghost use Rattle.pas_trace.specs.Asked.{work_of};

    /// What it asks for, by who acts.
    #[inline(always)]
    pub fn work(self) -> Work
        ensures { result ≡ work_of self.what }
    {
        match self.what {
            What::Alloc {
                name,
                heap,
                size,
                align,
            } => Work::Own(Task::Request {
                name,
                heap,
                size,
                align,
            }),
            What::Guarded {
                keeper,
                name,
                heap,
                size,
                align,
            } => Work::Own(Task::Guarded {
                keeper,
                name,
                heap,
                size,
                align,
            }),
            What::Free { name } => Work::Own(Task::Free { name, room: None }),
            What::FreeSized { name, room } => Work::Own(Task::Free {
                name,
                room: Some(room),
            }),
            What::Raw { block } => Work::Own(Task::FreeRaw { block, room: None }),
            What::RawSized { block, room } => Work::Own(Task::FreeRaw {
                block,
                room: Some(room),
            }),
            What::Remake {
                name,
                old,
                heap,
                size,
                align,
            } => Work::Own(Task::Remake {
                name,
                old,
                heap,
                size,
                align,
            }),
            What::Flush => Work::Own(Task::Flush),
            What::Stop => Work::Own(Task::Stop),
            What::Tick(epoch) => Work::Chore(Chore::Tick(epoch)),
            What::Pass => Work::Chore(Chore::Pass),
            What::Idle(epochs) => Work::Chore(Chore::Idle(epochs)),
        }
    }
}

impl Chore {
    ghost use Rattle.std.specs.Prelude.{◌≡◌};
    ghost use Rattle.pas_trace.specs.Plans.{what_of_chore};

    /// The operation that asks for it.
    #[inline(always)]
    pub(crate) fn what(self) -> What
        ensures { result ≡ what_of_chore self }
    {
        match self {
            Chore::Tick(epoch) => What::Tick(epoch),
            Chore::Pass => What::Pass,
            Chore::Idle(epochs) => What::Idle(epochs),
        }
    }
}

impl Phase {
    ghost use Rattle.std.specs.Prelude.{◌≡◌};
    ghost use Rattle.pas_trace.specs.Plans.{ops_of};

    /// The operations, in order.
    pub fn as_slice(&self) -> &[Op]
        ensures { result.now ≡ ops_of self.now }
    {
        &self.ops
    }
}

impl Phases {
    ghost use Rattle.std.specs.Prelude.{◌≡◌};
    ghost use Rattle.pas_trace.specs.Plans.{phases_of};

    /// The phases, in order.
    pub fn as_slice(&self) -> &[Phase]
        ensures { result.now ≡ phases_of self.now }
    {
        &self.phases
    }
}

impl Bounds {
    ghost use Rattle.std.specs.Prelude.{◌≡◌};
    ghost use Rattle.pas_trace.specs.Plans.{bounds_of};

    /// The bounds, by actor.
    pub fn as_slice(&self) -> &[u32]
        ensures { result.now ≡ bounds_of self.now }
    {
        &self.bounds
    }
}
