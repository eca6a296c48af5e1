//! Why a machine refuses an event.
ghost use Rattle.std.specs.Prelude.{◌≡◌};
ghost use Rattle.pas_machine.specs.Reasons.{reason_number};

use thiserror::Error;

/// Why an event isn't one that may come next. Of several reasons that apply to an event, the first one is told.
#[derive(Clone, Copy, Debug, PartialEq, Eq, Drop, Error)]
pub enum Illegal {
    /// The page, or a page of the run, isn't one of the region, the address is no multiple of 16, or the room is 0 or no multiple of 16.
    #[error("the place is not one of the region")]
    BadPage = 1,
    /// The heap isn't one of the profile.
    #[error("the heap is not one of the profile")]
    BadHeap = 2,
    /// The page has a deed.
    #[error("the page has a deed")]
    DeedTwice = 3,
    /// The page has no deed, or a page of the run has none of the block's heap.
    #[error("a page has no deed of the heap")]
    NoDeed = 4,
    /// The page is backed.
    #[error("the page is backed")]
    BackedTwice = 5,
    /// The page, or a page of the run, isn't backed.
    #[error("a page is not backed")]
    NotBacked = 6,
    /// A live block touches the page, or the run.
    #[error("a live block is there")]
    LivesThere = 7,
    /// The epoch is below the greatest one of an end on the page and the age.
    #[error("the page is too young")]
    TooYoung = 8,
    /// The turn isn't the number of blocks that were given at the address.
    #[error("the turn is not the next one of the address")]
    WrongTurn = 9,
    /// No block of this name lives.
    #[error("no block of this name lives")]
    NotLive = 10,
    /// The refusal has another reason, or the name lives.
    #[error("the refusal has another reason")]
    WrongReason = 11,
}

/// Why a step of the machine wasn't made.
#[derive(Clone, Copy, Debug, PartialEq, Eq, Drop, Error)]
pub enum StepFault {
    /// The event may not come next.
    #[error("illegal event: {0}")]
    Illegal(Illegal),
    /// The blocks at an address can't be counted any more.
    #[error("out of memory")]
    NoMemory,
}

impl Illegal {
    /// The number of the reason, from 1 to 11.
    pub fn number(&self) -> u8
        ensures { result ≡ reason_number self.now }
    {
        *self as u8
    }
}
