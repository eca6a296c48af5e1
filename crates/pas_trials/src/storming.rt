//! Foreign actors that free or borrow a block between the steps of another one.
ghost use Rattle.std.specs.Prelude.{◌≡◌, ◌≤◌, ◌+◌, ◌*◌, []};
ghost use Rattle.pas_steps.specs.{Clear.HasNothing, Desks.CanCall, Unknown.unknown_pages};
ghost use Rattle.pas_cache.specs.Caches.{cached, AtRest};
ghost use Rattle.pas_trials.specs.Borrowing.{Borrows};
ghost use Rattle.pas_plain.specs.Storms.{Acts};

use pas_cache::ThreadCache;
use pas_free_log::{end_one, may_end};
use pas_plain::Intruder;
use pas_profile::Name;
use pas_steps::Desk;
use pas_utility::CacheSeat;

/// Ends the block of this name before the own step of this number, and does nothing before the others.
#[derive(Clone, Copy, PartialEq, Eq)]
pub struct Flusher {
    pub at: u64,
    pub name: Name,
}

impl Intruder for Flusher {
    fn act<D: Desk>(&mut self, desk: &mut D, number: u64) {
        if number == self.at && may_end(desk.profile(), self.name) {
            end_one(desk, self.name);
        }
    }
}

/// Asks its cache, which is empty, for a block of 32 bytes, and stops the cache.
fn borrow_one<D: Desk>(desk: &mut D, cache: &mut ThreadCache)
    requires locals { (cached cache.old).locals ≡ [] }
    requires log { (cached cache.old).log ≡ [] }
    requires can { CanCall (D.standing desk.old) HasNothing }
    requires room { 70 ≤ D.spare_of desk.old }
    ensures acts { Acts (D.standing desk.old) (D.standing desk.new) }
    ensures locals { (cached cache.new).locals ≡ [] }
    ensures log { (cached cache.new).log ≡ [] }
    ensures home { D.home desk.new ≡ D.home desk.old }
{
    let _ = cache.alloc(desk, 0, 24, 16);
    cache.stop(desk);
}

/// Asks for a block and stops its cache before each own step from one number to another.
#[derive(Drop)]
pub struct Borrower {
    cache: ThreadCache,
    first: u64,
    last: u64,
    ghost locals: { (cached cache).locals ≡ [] },
    ghost log: { (cached cache).log ≡ [] },
}

impl Borrower {
    /// With a new cache of the seat's thread.
    pub fn new(seat: CacheSeat, first: u64, last: u64) -> Borrower {
        Borrower {
            cache: ThreadCache::new(seat),
            first,
            last,
        }
    }
}

impl Intruder for Borrower {
    fn act<D: Desk>(&mut self, desk: &mut D, number: u64) {
        if number < self.first || number > self.last {
            return;
        }
        borrow_one(desk, &mut self.cache);
    }
}

/// Asks for so many blocks of 512 bytes of heap 0. At most two events for each, and one for the deed of each page.
pub fn borrow_many<D: Desk>(desk: &mut D, cache: &mut ThreadCache, blocks: u8)
    requires can { CanCall (D.standing desk.old) (λ v. AtRest (D.standing desk.old).seat.profile (cached cache.old) v × (2 * blocks + unknown_pages (D.standing desk.old).seat.profile v ≤ D.spare_of desk.old)) }
    ensures borrows { Borrows (cached cache.old) (cached cache.new) (D.standing desk.old) (D.standing desk.new) }
    ensures home { D.home desk.new ≡ D.home desk.old }
{
    for done in 0..blocks {
        let _ = cache.alloc(desk, 0, 512, 16);
    }
}
