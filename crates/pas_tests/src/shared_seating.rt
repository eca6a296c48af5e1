//! Shared regions that nobody used yet.
ghost use Rattle.std.specs.Prelude.{◌≡◌, ◌≤◌, All, IfOk};
ghost use Rattle.pas_shared.specs.Passes.{profile_of, IsFreshPass};
ghost use Rattle.pas_tests.specs.Seated.{shared_profile};

use pas_profile::{NoMemory, Profile};
use pas_shared::{SharedPass, SharedRegion};
use std::alloc::Global;
use std::test::Fail;

/// A region of so many pages and threads and of one heap, and the passes of its actors, each with room for so many events.
pub fn opened(
    alloc: Global,
    pages: u32,
    threads: u8,
    events: u32,
) -> Result<(SharedRegion, Vec<SharedPass>), Fail>
    requires pages { (1 ≤ pages) × (pages ≤ 4096) }
    requires threads { (1 ≤ threads) × (threads ≤ 16) }
    ensures profile { IfOk result (λ opened. profile_of opened.0 ≡ shared_profile pages threads) }
    ensures passes { IfOk result (λ opened. All (IsFreshPass opened.0 events) opened.1.items) }
{
    let profile = Profile {
        pages,
        threads,
        age: 2,
        heaps: 1,
        shared: 0,
        classes: 16,
    };
    Ok(pas_shared::opened_with_room(alloc, profile, events)?)
}

/// Such a region of two threads, and the passes of these two.
pub fn opened_for_two(
    alloc: Global,
    pages: u32,
    events: u32,
) -> Result<(SharedRegion, SharedPass, SharedPass), Fail>
    requires pages { (1 ≤ pages) × (pages ≤ 4096) }
    ensures profile { IfOk result (λ opened. profile_of opened.0 ≡ shared_profile pages 2) }
    ensures first { IfOk result (λ opened. IsFreshPass opened.0 events opened.1) }
    ensures second { IfOk result (λ opened. IsFreshPass opened.0 events opened.2) }
{
    let (region, mut passes) = opened(alloc, pages, 2, events)?;
    let Some(second) = passes.pop() else {
        return Err(NoMemory.into());
    };
    let Some(first) = passes.pop() else {
        return Err(NoMemory.into());
    };
    Ok((region, first, second))
}
