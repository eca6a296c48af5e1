//! What an actor does at one go.
ghost use Rattle.std.specs.Prelude.{◌≡◌, ◌≤◌, ◌<◌, ◌+◌, ◌*◌, ◌^◌, [], All, length};
ghost use Rattle.pas_profile.specs.Profiles.{IsAdmitted};
ghost use Rattle.pas_steps.specs.Desks.{CanCall};
ghost use Rattle.pas_free_log.specs.{Conditions.IsEntryOf, Logs.entries_in};
ghost use Rattle.pas_cache.specs.Caches.{cached, AtRest};
ghost use Rattle.pas_utility.specs.Outcomes.{places_of};
ghost use Rattle.pas_trials.specs.Borrowing.{Borrows};

use arrayvec::ArrayVec;
use pas_cache::ThreadCache;
use pas_free_log::{FreeLog, flush, may_end};
use pas_large::NoIndex;
use pas_profile::limits::MOST_BITFIT;
use pas_profile::{Address, Name, Profile};
use pas_scavenger::pass;
use pas_steps::Desk;
use pas_utility::{CacheSeat, Outcomes};

/// Requests are made only in regions of at most so many pages, so that the room that an errand asks for holds the events of each.
const MOST_PAGES: u32 = 30;

/// What an actor does at one go.
#[derive(Clone, Copy, PartialEq, Eq, Drop)]
pub enum Errand {
    /// Asks its cache for so many bytes of the heap: slots, a bit-fit block, or whole pages above 2,048 bytes. It asks for nothing where the
    /// region doesn't admit the request.
    Ask { heap: u8, size: u32, align: u32 },
    /// Flushes a log of so many names of turn 0, the addresses so many bytes from each other. Names that can't be of the region are left out.
    Free { first: u32, gap: u32, blocks: u8 },
    /// Stops its cache.
    Stop,
    /// Stops its cache and raises the epoch to this one, at most 2^40 - 1.
    Age { epoch: u64 },
    /// Stops its cache and makes the pass of a scavenger.
    Pass,
}

/// What an actor works with: its cache, whose log is empty, and room for the outcomes of a pass over a region of so many pages.
#[derive(Drop)]
pub struct Hands {
    pub(crate) cache: ThreadCache,
    outcomes: Outcomes,
    pages: u32,
    ghost log: { (cached cache).log ≡ [] },
    ghost places: { places_of outcomes ≡ pages },
}

/// A log of these names, as far as their ends may be tried.
fn logged(profile: &Profile, first: u32, gap: u32, blocks: u8) -> FreeLog
    ensures entries { All (IsEntryOf profile.now) (entries_in result) }
    ensures few { length (entries_in result) ≤ 64 }
{
    let mut log = FreeLog::new();
    for block in 0..blocks {
        let address = first.saturating_add(gap.saturating_mul(block as u32));
        let name = Name {
            address: Address(address),
            turn: 0,
        };
        if may_end(profile, name) {
            log.add(name);
        }
    }
    log
}

/// Flushes a log of these names.
fn free<D: Desk>(desk: &mut D, cache: &ThreadCache, first: u32, gap: u32, blocks: u8)
    requires can { CanCall (D.standing desk.old) (AtRest (D.standing desk.old).seat.profile (cached cache.now)) }
    requires room { 70 ≤ D.spare_of desk.old }
    ensures goes { Borrows (cached cache.now) (cached cache.now) (D.standing desk.old) (D.standing desk.new) }
    ensures home { D.home desk.new ≡ D.home desk.old }
{
    let mut log = logged(desk.profile(), first, gap, blocks);
    let mut ended = ArrayVec::new();
    flush(desk, &mut log, &mut ended);
}

/// Asks the cache for a block that the region admits.
fn serve<D: Desk>(desk: &mut D, cache: &mut ThreadCache, heap: u8, size: u32, align: u32)
    requires admitted { IsAdmitted (D.standing desk.old).seat.profile size align heap }
    requires pages { (D.standing desk.old).seat.profile.pages ≤ 30 }
    requires can { CanCall (D.standing desk.old) (AtRest (D.standing desk.old).seat.profile (cached cache.old)) }
    requires room { 70 ≤ D.spare_of desk.old }
    ensures goes { Borrows (cached cache.old) (cached cache.new) (D.standing desk.old) (D.standing desk.new) }
    ensures home { D.home desk.new ≡ D.home desk.old }
{
    if size > MOST_BITFIT {
        let _ = cache.alloc_large(desk, &mut NoIndex, heap, size);
    } else {
        let _ = cache.alloc(desk, heap, size, align);
    }
}

/// Asks the cache for a block, where the region admits the request and has few pages.
fn ask<D: Desk>(desk: &mut D, cache: &mut ThreadCache, heap: u8, size: u32, align: u32)
    requires can { CanCall (D.standing desk.old) (AtRest (D.standing desk.old).seat.profile (cached cache.old)) }
    requires room { 70 ≤ D.spare_of desk.old }
    ensures goes { Borrows (cached cache.old) (cached cache.new) (D.standing desk.old) (D.standing desk.new) }
    ensures home { D.home desk.new ≡ D.home desk.old }
{
    let profile = desk.profile();
    if profile.admits(size, align, heap) && profile.pages <= MOST_PAGES {
        serve(desk, cache, heap, size, align);
    }
}

/// Stops the cache.
fn stop<D: Desk>(desk: &mut D, cache: &mut ThreadCache)
    requires log { (cached cache.old).log ≡ [] }
    requires can { CanCall (D.standing desk.old) (AtRest (D.standing desk.old).seat.profile (cached cache.old)) }
    ensures goes { Borrows (cached cache.old) (cached cache.new) (D.standing desk.old) (D.standing desk.new) }
    ensures home { D.home desk.new ≡ D.home desk.old }
{
    cache.stop(desk);
}

/// Stops the cache and raises the epoch.
fn age<D: Desk>(desk: &mut D, cache: &mut ThreadCache, epoch: u64)
    requires log { (cached cache.old).log ≡ [] }
    requires epoch { epoch < 2 ^ 40 }
    requires can { CanCall (D.standing desk.old) (AtRest (D.standing desk.old).seat.profile (cached cache.old)) }
    ensures goes { Borrows (cached cache.old) (cached cache.new) (D.standing desk.old) (D.standing desk.new) }
    ensures home { D.home desk.new ≡ D.home desk.old }
{
    cache.stop(desk);
    desk.tick(epoch);
}

/// Stops the cache and makes a pass.
fn scavenge<D: Desk>(desk: &mut D, cache: &mut ThreadCache, outcomes: &mut Outcomes)
    requires log { (cached cache.old).log ≡ [] }
    requires places { places_of outcomes.old ≡ (D.standing desk.old).seat.profile.pages }
    requires pages { (D.standing desk.old).seat.profile.pages ≤ 30 }
    requires can { CanCall (D.standing desk.old) (AtRest (D.standing desk.old).seat.profile (cached cache.old)) }
    requires room { 70 ≤ D.spare_of desk.old }
    ensures goes { Borrows (cached cache.old) (cached cache.new) (D.standing desk.old) (D.standing desk.new) }
    ensures places { places_of outcomes.new ≡ places_of outcomes.old }
    ensures home { D.home desk.new ≡ D.home desk.old }
{
    cache.stop(desk);
    pass(desk, outcomes);
}

impl Hands {
    ghost use Rattle.pas_cache.specs.Calls.{StopsCache};
    ghost use Rattle.pas_utility.specs.Seats.{thread_of};
    ghost use Rattle.pas_trials.specs.Storms.{cache_of};

    /// The hands of an actor that did nothing yet, with the seat of its cache. The outcomes are for a region of so many pages.
    pub fn new(seat: CacheSeat, outcomes: Outcomes, pages: u32) -> Hands
        requires places { places_of outcomes ≡ pages }
        ensures locals { (cache_of result).locals ≡ [] }
    {
        Hands {
            cache: ThreadCache::new(seat),
            outcomes,
            pages,
        }
    }

    /// Stops the cache, after which the actor has nothing.
    pub fn stop<D: Desk>(&mut self, desk: &mut D)
        requires can { CanCall (D.standing desk.old) (AtRest (D.standing desk.old).seat.profile (cache_of self.old)) }
        ensures stops { StopsCache (cache_of self.old) (cache_of self.new) (D.standing desk.old) (D.standing desk.new) }
        ensures home { D.home desk.new ≡ D.home desk.old }
    {
        self.cache.stop(desk);
    }

    /// Goes on the errand. The actor is at rest with its cache before and afterwards, and the log of its cache stays empty. A pass is made only
    /// where the outcomes are for just this region, of at most 30 pages.
    pub fn go<D: Desk>(&mut self, desk: &mut D, errand: Errand)
        requires can { CanCall (D.standing desk.old) (AtRest (D.standing desk.old).seat.profile (cache_of self.old)) }
        requires room { 70 ≤ D.spare_of desk.old }
        ensures goes { Borrows (cache_of self.old) (cache_of self.new) (D.standing desk.old) (D.standing desk.new) }
        ensures home { D.home desk.new ≡ D.home desk.old }
    {
        match errand {
            Errand::Ask { heap, size, align } => ask(desk, &mut self.cache, heap, size, align),
            Errand::Free { first, gap, blocks } => free(desk, &self.cache, first, gap, blocks),
            Errand::Stop => stop(desk, &mut self.cache),
            Errand::Age { epoch } => age(desk, &mut self.cache, epoch.min((1 << 40) - 1)),
            Errand::Pass => {
                let pages = desk.profile().pages;
                if pages == self.pages && pages <= MOST_PAGES {
                    scavenge(desk, &mut self.cache, &mut self.outcomes);
                }
            }
        }
    }
}
