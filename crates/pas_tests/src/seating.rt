//! Profiles of plain regions, and their close after a storm.
ghost use Rattle.std.specs.Prelude.{◌≡◌, ◌≤◌, [], IfOk};
ghost use Rattle.pas_profile.specs.declared.profile.Profile.{Profile as TheProfile};
ghost use Rattle.pas_steps.specs.{Clear.HasNothing, Lists.Whole, States.profile_of as the_profile_of, Views.View};
ghost use Rattle.pas_cache.specs.Caches.{cached, AtRest};
ghost use Rattle.pas_plain.specs.{Plain.profile_of, Storms.StormStands};
ghost use Rattle.pas_tests.specs.Seated.{two_threads, stormy, large_region};

use pas_cache::ThreadCache;
use pas_plain::{PlainPass, PlainRegion, close};
use pas_profile::{NoMemory, Profile};
use pas_steps::State;
use pas_utility::{CacheSeat, Utility};
use std::alloc::{AllocError, Global};
use std::test::Fail;

/// A region of so many pages, two threads and one heap.
pub fn plain_profile(pages: u32) -> Profile
    ensures { result ≡ two_threads pages }
{
    Profile {
        pages,
        threads: 2,
        age: 2,
        heaps: 1,
        shared: 0,
        classes: 16,
    }
}

/// The same with two heaps, of which the second has shared pages.
pub fn stormy_profile(pages: u32) -> Profile
    ensures { result ≡ stormy pages }
{
    Profile {
        pages,
        threads: 2,
        age: 2,
        heaps: 2,
        shared: 2,
        classes: 16,
    }
}

/// The largest region of twenty classes, of two threads and one heap.
pub fn large_profile() -> Profile
    ensures { result ≡ large_region }
{
    Profile {
        pages: 16_384,
        threads: 2,
        age: 2,
        heaps: 1,
        shared: 0,
        classes: 20,
    }
}

/// The region is closed with both passes.
pub fn closed(
    alloc: Global,
    region: PlainRegion,
    own: PlainPass,
    foreign: PlainPass,
) -> Result<State, AllocError>
    requires storm { (v : View) × (l : Whole) × StormStands region own foreign v l }
    ensures { IfOk result (λ state. the_profile_of state ≡ profile_of region) }
{
    Ok(close(region, vec![in alloc; own, foreign]?))
}

/// The seat of a thread's cache, at a region of two threads.
pub fn seat_for(alloc: Global, profile: Profile, thread: u8) -> Result<CacheSeat, Fail>
    requires threads { profile.threads ≡ 2 }
    requires thread { (1 ≤ thread) × (thread ≤ 2) }
{
    let mut utility = Utility::try_new(alloc, &profile, &[0, 0, 0])?;
    let Some(seat) = utility.cache_seat(thread) else {
        return Err(NoMemory.into());
    };
    Ok(seat)
}

/// The cache of thread 1 there, which did nothing yet.
pub fn cache_for(alloc: Global, profile: Profile) -> Result<ThreadCache, Fail>
    requires { profile.threads ≡ 2 }
    ensures rest { IfOk result (λ cache. (f : TheProfile) (v : View) → HasNothing v → AtRest f (cached cache) v) }
    ensures log { IfOk result (λ cache. (cached cache).log ≡ []) }
{
    Ok(ThreadCache::new(seat_for(alloc, profile, 1)?))
}
