//! One or two actors at a plain region that nobody used yet.
ghost use Rattle.std.specs.Prelude.{◌≡◌, [], IfOk};
ghost use Rattle.pas_profile.specs.Profiles.{IsValid};
ghost use Rattle.pas_plain.specs.{Plain.{profile_of, actor_of, spare_in, room_of_pass}, Seats.{DeskStands, Opens, region_of, pass_of}};

use crate::desk::PlainDesk;
use crate::pass::PlainPass;
use crate::region::PlainRegion;
use pas_profile::{EventRoom, NoMemory, Profile};
use std::alloc::Global;

/// The last actor of a region that nobody used yet, alone at its desk, with room for so many events. The other actors have room for none, and
/// their passes are let go. It costs one pass over the words, and refuses only where memory is wanting.
pub fn alone(alloc: Global, profile: Profile, events: u32) -> Result<PlainDesk, NoMemory>
    requires { IsValid profile }
    ensures fresh { IfOk result (λ desk. DeskStands desk [] []) }
    ensures profile { IfOk result (λ desk. profile_of (region_of desk) ≡ profile) }
    ensures room { IfOk result (λ desk. room_of_pass (pass_of desk) ≡ events) }
    ensures actor { IfOk result (λ desk. actor_of (pass_of desk) ≡ profile.threads) }
{
    let Ok(mut rooms) = Vec::with_capacity(alloc, profile.threads as usize + 1) else {
        return Err(NoMemory);
    };
    for _other in 0..profile.threads {
        rooms.push_reserved(EventRoom::try_new(alloc, 0)?);
    }
    let room = EventRoom::try_new(alloc, events)?;
    rooms.push_reserved(room);
    let (region, mut passes) = PlainRegion::try_new(alloc, profile, rooms)?;
    let Some(pass) = passes.pop() else {
        return Err(NoMemory);
    };
    Ok(region.desk(pass))
}

/// Actor 1 at the desk of a region of two threads that nobody used yet, beside the pass of actor 2. Each has room for so many events, and the
/// scavenger for none. It costs one pass over the words, and refuses only where memory is wanting.
pub fn beside(
    alloc: Global,
    profile: Profile,
    events: u32,
) -> Result<(PlainDesk, PlainPass), NoMemory>
    requires valid { IsValid profile }
    requires threads { profile.threads ≡ 2 }
    ensures opens { IfOk result (λ opened. Opens opened.0 opened.1 events) }
    ensures profile { IfOk result (λ opened. profile_of (region_of opened.0) ≡ profile) }
    ensures room { IfOk result (λ opened. spare_in (pass_of opened.0) ≡ events) }
{
    let Ok(mut rooms) = Vec::with_capacity(alloc, 3) else {
        return Err(NoMemory);
    };
    let idle = EventRoom::try_new(alloc, 0)?;
    rooms.push_reserved(idle);
    let one = EventRoom::try_new(alloc, events)?;
    rooms.push_reserved(one);
    let two = EventRoom::try_new(alloc, events)?;
    rooms.push_reserved(two);
    let (region, mut passes) = PlainRegion::try_new(alloc, profile, rooms)?;
    let Some(second) = passes.pop() else {
        return Err(NoMemory);
    };
    let Some(first) = passes.pop() else {
        return Err(NoMemory);
    };
    Ok((region.desk(first), second))
}
