//! A shared region that nobody used yet, all of whose actors have the same room.
ghost use Rattle.std.specs.Prelude.{◌≡◌, ◌+◌, [], All, IfOk, vec_len};
ghost use Rattle.pas_profile.specs.{Profiles.IsValid, Rooms.{shown, size_of_room}};
ghost use Rattle.pas_shared.specs.Passes.{profile_of, IsFreshPass};

use crate::pass::SharedPass;
use crate::region::SharedRegion;
use pas_profile::{EventRoom, NoMemory, Profile};
use std::alloc::Global;

/// So many rooms, each for so many events.
fn rooms_for(alloc: Global, actors: u8, events: u32) -> Result<Vec<EventRoom>, NoMemory>
    ensures count { IfOk result (λ rooms. vec_len rooms ≡ actors) }
    ensures empty { IfOk result (λ rooms. All (λ room. shown room ≡ []) rooms.items) }
    ensures size { IfOk result (λ rooms. All (λ room. size_of_room room ≡ events) rooms.items) }
{
    let Ok(mut rooms) = Vec::with_capacity(alloc, actors as usize) else {
        return Err(NoMemory);
    };
    for _index in 0..actors {
        rooms.push_reserved(EventRoom::try_new(alloc, events)?);
    }
    Ok(rooms)
}

/// A region that nobody used yet, and the passes of its actors from 0 on, each with room for so many events. It costs two passes over the words,
/// and a load for each actor. It refuses only where memory is wanting.
pub fn opened_with_room(
    alloc: Global,
    profile: Profile,
    events: u32,
) -> Result<(SharedRegion, Vec<SharedPass>), NoMemory>
    requires { IsValid profile }
    ensures profile { IfOk result (λ opened. profile_of opened.0 ≡ profile) }
    ensures passes { IfOk result (λ opened. All (IsFreshPass opened.0 events) opened.1.items) }
{
    let rooms = rooms_for(alloc, profile.threads + 1, events)?;
    let (region, passes) = SharedRegion::try_new(alloc, profile, rooms)?;
    Ok((region, passes))
}
