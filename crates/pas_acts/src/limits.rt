//! How much room what a replay says needs.
ghost use Rattle.std.specs.Prelude.{◌≡◌, ◌≤◌, ◌+◌, ℕ, List, [], IfOk, length};
ghost use Rattle.pas_trace.specs.Plans.{IsPlanOf};
ghost use Rattle.pas_records.specs.Rooms.{records_in, room_of};
ghost use Rattle.pas_answers.specs.Replays.{phases_of};

use pas_profile::NoMemory;
use pas_records::{Records, room_for_replay};
use pas_trace::Plan;
use std::alloc::Global;

/// Room for all that a replay of the plan says: the records of its operations, the mark of each phase, and that of the close. NoMemory where memory was wanting.
pub fn records_for(alloc: Global, plan: &Plan) -> Result<Records, NoMemory>
    requires { (text : List ℕ) × (length text ≤ 16777216) × IsPlanOf text plan.now }
    ensures empty { IfOk result (λ out. records_in out ≡ []) }
    ensures room { IfOk result (λ out. room_of out ≡ plan.now.total + length (phases_of plan.now) + 1) }
{
    room_for_replay(alloc, plan.total, plan.phases.as_slice().len() as u32)
}
