//! Regions that nobody used yet, of one heap and four threads.
ghost use Rattle.std.specs.Prelude.{◌≡◌, All, IfOk};
ghost use Rattle.pas_steps.specs.Desks.{AnyView, CanCall};
ghost use Rattle.pas_plain.specs.{Seats.{standing_of, region_of}, Plain.profile_of};
ghost use Rattle.pas_shared.specs.Passes.{profile_of as the_profile_of, IsFreshPass};
ghost use Rattle.pas_timing.specs.Repeats.{bench_profile};

use crate::steps::repeating::PAGES;
use pas_plain::{PlainDesk, alone};
use pas_profile::{NoMemory, Profile};
use pas_shared::{SharedPass, SharedRegion};
use std::alloc::Global;

/// The threads of a region.
pub const THREADS: u8 = 4;

const PROFILE: Profile = Profile {
    pages: PAGES,
    threads: THREADS,
    age: 2,
    heaps: 1,
    shared: 0,
    classes: 16,
};

/// The last thread at the desk of a plain region.
pub fn plain(alloc: Global) -> Result<PlainDesk, NoMemory>
    ensures can { IfOk result (λ desk. CanCall (standing_of desk) AnyView) }
    ensures profile { IfOk result (λ desk. profile_of (region_of desk) ≡ bench_profile) }
{
    let desk = alone(alloc, PROFILE, 1)?;
    Ok(desk)
}

/// A shared region and its passes, each with room for so many events.
pub fn shared(alloc: Global, events: u32) -> Result<(SharedRegion, Vec<SharedPass>), NoMemory>
    ensures profile { IfOk result (λ opened. the_profile_of opened.0 ≡ bench_profile) }
    ensures passes { IfOk result (λ opened. All (IsFreshPass opened.0 events) opened.1.items) }
{
    pas_shared::opened_with_room(alloc, PROFILE, events)
}
