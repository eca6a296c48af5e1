//! How a region is opened for all its actors, and how it is closed.
ghost use Rattle.std.specs.Prelude.{◌≡◌, ◌≤◌, ◌+◌, All, IfOk, [], vec_len};
ghost use Rattle.pas_profile.specs.{Profiles.{IsValid, IsWordOf}, Rooms.shown};
ghost use Rattle.pas_steps.specs.{Lists.{Whole, word_after}, States.{profile_of as the_profile_of, word_in}};
ghost use Rattle.pas_plain.specs.{Plain.{profile_of, RegionStands, PassStands, passes_from}, Seats.ArePassesOf};

use crate::pass::PlainPass;
use crate::region::PlainRegion;
use pas_profile::{EventRoom, NoMemory, Profile, Word};
use pas_steps::State;
use std::alloc::Global;

/// A pass for each actor, from 0 on, with the rooms in their order.
pub(crate) fn passes_for(alloc: Global, rooms: Vec<EventRoom>) -> Result<Vec<PlainPass>, NoMemory>
    requires { vec_len rooms ≤ 256 }
    ensures { IfOk result (λ passes. passes.items ≡ passes_from 0 rooms.items) }
{
    let Ok(mut passes) = Vec::with_capacity(alloc, rooms.len()) else {
        return Err(NoMemory);
    };
    for room in rooms {
        let actor = passes.len() as u8;
        passes.push_reserved(PlainPass::new(actor, room));
    }
    Ok(passes)
}

impl PlainRegion {
    /// A region that nobody used yet, and the passes of its actors: that of the scavenger, which is actor 0, and those of the
    /// threads, each with the room at its number. It costs one pass over the words.
    pub fn try_new(
        alloc: Global,
        profile: Profile,
        rooms: Vec<EventRoom>,
    ) -> Result<(PlainRegion, Vec<PlainPass>), NoMemory>
        requires valid { IsValid profile }
        requires actors { vec_len rooms ≡ profile.threads + 1 }
        requires empty { All (λ room. shown room ≡ []) rooms.items }
        ensures profile { IfOk result (λ opened. profile_of opened.0 ≡ profile) }
        ensures opening { IfOk result (λ opened. RegionStands opened.0 []) }
        ensures passes { IfOk result (λ opened. opened.1.items ≡ passes_from 0 rooms.items) }
        ensures stand { IfOk result (λ opened. All (λ pass. PassStands profile pass []) opened.1.items) }
    {
        let region = PlainRegion::opened(alloc, profile)?;
        let passes = passes_for(alloc, rooms)?;
        Ok((region, passes))
    }
}

/// Ends the work at a region, with all passes that are left. The state keeps the region's own vector.
pub fn close(region: PlainRegion, passes: Vec<PlainPass>) -> State
    requires { ArePassesOf region passes.items }
    ensures profile { the_profile_of result ≡ profile_of region }
    ensures words { (l : Whole) → RegionStands region l → (w : Word) → IsWordOf (profile_of region) w → word_in result w ≡ word_after l w }
{
    region.into_state()
}
