//! The cache of a thread.

use arrayvec::ArrayVec;
use pas_free_log::{EndedRun, FreeLog};
use pas_profile::Word;
use pas_profile::limits::{MOST_LOCALS, MOST_LOGGED};
use pas_segregated::Slots;
use pas_steps::Desk;
use pas_utility::CacheSeat;
use std::marker::Model;

/// What a thread keeps between its requests: at most 32 local allocators, one for each pair of heap and class, at most 64 names of blocks that it
/// freed, and at most 64 runs of large blocks that it ended.
///
/// It takes no memory. Its calls ask that the desk's actor is at rest with the cache, and leave it so.
#[derive(Drop)]
pub struct ThreadCache {
    pub(crate) seat: CacheSeat,
    /// In order of last use, the last used at the end.
    pub(crate) locals: ArrayVec<Slots, MOST_LOCALS>,
    pub(crate) log: FreeLog,
    /// The runs of large blocks that ended, in order, until they are handed on.
    pub(crate) noted: ArrayVec<EndedRun, MOST_LOGGED>,
    pub(crate) idle_since: u64,
}

impl Model for ThreadCache {
    ghost use Rattle.pas_utility.specs.Seats.{thread_of};
    ghost use Rattle.pas_cache.specs.Contents.{CacheOf, IsKept};

    ghost Value = { CacheOf };

    ghost view = { λ cache. record { thread = thread_of cache.seat; contents = record { locals = cache.locals.items; log = cache.log; noted = cache.noted.items; idle_since = cache.idle_since } } };

    ghost invariant = { λ cache. IsKept cache.locals.items cache.noted.items };
}

impl ThreadCache {
    ghost use Rattle.std.specs.Prelude.{◌≡◌, [], length};
    ghost use Rattle.pas_steps.specs.{Desks.CanCall, Clear.HasNothing, Views.View};
    ghost use Rattle.pas_utility.specs.Seats.{thread_of};
    ghost use Rattle.pas_cache.specs.{Caches.{cached, seat_of, AtRest}, Calls.Begins};
    ghost use Rattle.pas_profile.specs.declared.profile.Profile.{Profile};

    /// An empty cache of the seat's thread. An actor that holds and has nothing is at rest with it.
    pub fn new(seat: CacheSeat) -> ThreadCache
        ensures actor { seat_of result ≡ thread_of seat }
        ensures locals { (cached result).locals ≡ [] }
        ensures log { (cached result).log ≡ [] }
        ensures noted { (cached result).noted ≡ [] }
        ensures idle_since { (cached result).idle_since ≡ 0 }
        ensures rest { (f : Profile) (v : View) → HasNothing v → AtRest f (cached result) v }
    {
        ThreadCache {
            seat,
            locals: ArrayVec::new(),
            log: FreeLog::new(),
            noted: ArrayVec::new(),
            idle_since: 0,
        }
    }

    /// The thread, which is an actor from 1 on.
    pub fn actor(&self) -> u8
        ensures { result ≡ seat_of self.now }
    {
        self.seat.actor()
    }

    /// The epoch that the last `begin` read, and 0 before the first one.
    pub fn idle_since(&self) -> u64
        ensures { result ≡ (cached self.now).idle_since }
    {
        self.idle_since
    }

    /// The number of logged names, at most 64.
    pub fn logged(&self) -> u8
        ensures { result ≡ length (cached self.now).log }
    {
        self.log.len()
    }

    /// Reads the epoch, from which on the thread counts as idle until it begins again. One step.
    pub fn begin<D: Desk>(&mut self, desk: &mut D)
        requires can { CanCall (D.standing desk.old) (AtRest (D.standing desk.old).seat.profile (cached self.old)) }
        ensures begins { Begins (cached self.old) (cached self.new) (D.standing desk.old) (D.standing desk.new) }
        ensures actor { seat_of self.new ≡ seat_of self.old }
        ensures home { D.home desk.new ≡ D.home desk.old }
    {
        self.idle_since = desk.look(Word::Epoch);
    }
}
