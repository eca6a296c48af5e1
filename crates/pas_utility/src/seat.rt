//! The seat of a thread's cache.
ghost use Rattle.std.specs.Prelude.{◌≡◌};
ghost use Rattle.pas_utility.specs.Seats.{thread_of};

/// The seat of a thread's cache. A `Utility` alone makes seats, one for each thread, and hands each out once, so a thread has one cache.
#[derive(PartialEq, Eq, Drop)]
pub struct CacheSeat {
    actor: u8,
}

impl CacheSeat {
    /// The seat of this thread.
    pub(crate) fn new(actor: u8) -> CacheSeat
        ensures { thread_of result ≡ actor }
    {
        CacheSeat { actor }
    }

    /// The thread, which is an actor from 1 on.
    pub fn actor(&self) -> u8
        ensures { result ≡ thread_of self.now }
    {
        self.actor
    }
}
