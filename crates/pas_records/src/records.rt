//! A room for the records of a replay.
ghost use Rattle.std.specs.Prelude.{◌≡◌, ◌+◌, [], IfOk};
ghost use Rattle.pas_records.specs.Rooms.{records_in, room_of};

use crate::record::Record;
use pas_profile::{NoMemory, Room};
use std::alloc::Global;

/// Room for a fixed number of records, in the order in which they were made. Adding one takes no memory.
pub type Records = Room<Record>;

/// Room for the records of a replay that says at most `answers` answers in so many phases, with its close: `answers + phases + 1`. NoMemory where
/// memory was wanting, as it is where that isn't below 2^32.
pub fn room_for_replay(alloc: Global, answers: u32, phases: u32) -> Result<Records, NoMemory>
    ensures empty { IfOk result (λ room. records_in room ≡ []) }
    ensures size { IfOk result (λ room. room_of room ≡ answers + phases + 1) }
{
    match u32::try_from(answers as u64 + phases as u64 + 1) {
        Ok(bound) => Records::try_new(alloc, bound),
        Err(_) => Err(NoMemory),
    }
}
