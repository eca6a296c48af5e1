//! The replay of a plan whose operations are all of one thread.

ghost use Rattle.std.specs.Prelude.{◌≡◌, ◌↔◌, ◌≤◌, ◌+◌, ℕ, List, [], length, IsTrue};
ghost use Rattle.pas_trace.specs.Plans.{IsPlanOf};
ghost use Rattle.pas_records.specs.Rooms.{records_in, room_of};
ghost use Rattle.pas_answers.specs.{Replays.{phases_of, Shows}, Ways.{InOrder, OnThreads}};
ghost use Rattle.pas_replay.specs.{Kits.IsKitOf, OneThread.IsOfOneThread};

use crate::kit::{PlainKit, in_order};
use pas_acts::at_desk::SCAVENGER;
use pas_answers::Remake;
use pas_records::Records;
use pas_steps::State;
use pas_trace::Plan;

/// Whether all operations of the plan are of one thread: it has no other, no keeper, and the scavenger has none. Three looks at the plan, however long it is:
/// the scavenger's bound counts one record at least for each of its operations, so that 0 tells that there is none.
pub fn is_of_one_thread(plan: &Plan) -> bool
    requires { (text : List ℕ) × IsPlanOf text plan.now }
    ensures { IsTrue result ↔ IsOfOneThread plan.now }
{
    plan.profile.threads == 1 && plan.guard == 0 && plan.bounds.as_slice()[SCAVENGER as usize] == 0
}

/// Replays a plan of one thread in the order of the text. All that is said of a replay on threads holds of it, too: where one actor works there is
/// one order of the steps, and one of the records. Takes no memory, starts no thread, and makes no atomic exchange.
pub fn by_one_thread<M: Remake>(plan: &Plan, kit: PlainKit, remake: &M, out: &mut Records) -> State
    requires plan { (text : List ℕ) × (length text ≤ 16777216) × IsPlanOf text plan.now }
    requires alone { IsOfOneThread plan.now }
    requires kit { IsKitOf plan.now kit }
    requires empty { records_in out.old ≡ [] }
    requires room { plan.now.total + length (phases_of plan.now) + 1 ≤ room_of out.old }
    ensures in_order { Shows InOrder plan.now (records_in out.new) result }
    ensures on_threads { Shows OnThreads plan.now (records_in out.new) result }
{
    in_order(plan, kit, remake, out)
}
