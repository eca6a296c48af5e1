//! The replay of a whole plan on threads, with the kit that was made for it.
ghost use Rattle.std.specs.Prelude.{◌≡◌, ◌≤◌, ◌<◌, ◌+◌, ℕ, List, [], length, vec_capacity, ◌++◌};
ghost use Rattle.pas_trace.specs.Plans.{IsPlanOf};
ghost use Rattle.pas_answers.specs.{Replays.{phases_of, Shows}, Ways.OnThreads, Answers.Progress};
ghost use Rattle.pas_shared.specs.declared.region.SharedRegion.{SharedRegion as TheRegion};
ghost use Rattle.pas_threads.specs.{Sessions.{Session, TeamAt}, Kits.{IsKitOf, pass_in, kept_pass, own_passes, passes_in, passes_with}};
ghost use Rattle.pas_records.specs.Rooms.{records_in, room_of};

use crate::keeper::Keeper;
use crate::kit::SharedKit;
use crate::phases::{Team, replay};
use crate::workers::Worker;
use pas_acts::gate::Gate;
use pas_answers::Remake;
use pas_records::Records;
use pas_shared::{Ledger, SharedPass, close_settled};
use pas_steps::State;
use pas_trace::Plan;
use std::sync::Wait;
use std::thread::Threads;

/// The rooms of the actors of a replay that is over. They may be let go in another thread than that of the replay.
#[derive(Drop)]
pub struct Rooms {
    _team: Team,
}

/// Takes the pass out of this slot, if there is one, to the next place.
fn add_pass(passes: &mut Vec<SharedPass>, slot: &mut Option<SharedPass>)
    requires { length passes.old.items + length (pass_in slot.old) ≤ vec_capacity passes.old }
    ensures added { passes.new.items ≡ passes.old.items ++ pass_in slot.old }
    ensures many { length passes.new.items ≡ length passes.old.items + length (pass_in slot.old) }
    ensures places { vec_capacity passes.new ≡ vec_capacity passes.old }
{
    if let Some(pass) = slot.take() {
        passes.push_reserved(pass);
    }
}

/// .. the pass of this keeper, if there is one.
fn add_kept_pass(passes: &mut Vec<SharedPass>, keeper: &mut Option<Keeper>)
    requires { length passes.old.items + length (kept_pass keeper.old) ≤ vec_capacity passes.old }
    ensures added { passes.new.items ≡ passes.old.items ++ kept_pass keeper.old }
    ensures many { length passes.new.items ≡ length passes.old.items + length (kept_pass keeper.old) }
    ensures places { vec_capacity passes.new ≡ vec_capacity passes.old }
{
    if let Some(keeper) = keeper.take() {
        passes.push_reserved(keeper.pass);
    }
}

/// .. that of the worker, and behind it that of its keeper.
fn add_passes_of(passes: &mut Vec<SharedPass>, worker: &mut Worker)
    requires { length passes.old.items + length (own_passes worker.old) ≤ vec_capacity passes.old }
    ensures added { passes.new.items ≡ passes.old.items ++ own_passes worker.old }
    ensures many { length passes.new.items ≡ length passes.old.items + length (own_passes worker.old) }
    ensures places { vec_capacity passes.new ≡ vec_capacity passes.old }
{
    add_pass(passes, &mut worker.pass);
    add_kept_pass(passes, &mut worker.keeper);
}

/// .. those of all workers.
fn add_passes(passes: &mut Vec<SharedPass>, workers: &mut [Worker])
    requires { length passes.old.items + length (passes_in workers.old) ≤ vec_capacity passes.old }
    ensures { passes.new.items ≡ passes.old.items ++ passes_in workers.old }
{
    let Some((worker, others)) = workers.split_first_mut() else {
        return;
    };
    add_passes_of(passes, worker);
    add_passes(passes, others);
}

/// Takes the passes of all actors out, from the scavenger on, to the places of this list.
fn passes_of(team: &mut Team, mut passes: Vec<SharedPass>) -> Vec<SharedPass>
    requires none { passes.items ≡ [] }
    requires stands { (region : TheRegion) × (s : Session) × (end : Progress) × TeamAt region s [] team.old end × (s.threads + s.keepers < vec_capacity passes) }
    ensures { result.items ≡ passes_with team.old }
{
    add_pass(&mut passes, &mut team.scavenger.pass);
    add_passes(&mut passes, &mut team.threads);
    passes
}

/// Replays the plan as `on_threads` does, and gives the rooms of its actors out with the state, so that another thread may let them go: that takes time in
/// the memory which they touched.
pub fn on_threads_with_rooms<R: Threads + Wait + Sync, G: Gate + Sync, M: Remake + Sync>(
    rt: &R,
    plan: &Plan,
    kit: SharedKit,
    gate: &G,
    remake: &M,
    out: &mut Records,
) -> (State, Rooms)
    requires plan { (text : List ℕ) × (length text ≤ 16777216) × IsPlanOf text plan.now }
    requires kit { IsKitOf plan.now kit }
    requires empty { records_in out.old ≡ [] }
    requires room { plan.now.total + length (phases_of plan.now) + 1 ≤ room_of out.old }
    ensures { Shows OnThreads plan.now (records_in out.new) result.0 }
{
    let SharedKit {
        region,
        indexes,
        team,
        passes,
    } = kit;
    let mut ledger = Ledger::open(&region);
    let mut team = replay(
        rt,
        &region,
        &indexes,
        &mut ledger,
        team,
        plan.phases.as_slice(),
        gate,
        remake,
        out,
    );
    let passes = passes_of(&mut team, passes);
    (close_settled(region, ledger, passes), Rooms { _team: team })
}

/// Replays the plan. In each phase the operations of each thread that has one are performed in a thread of the system, all at once, and those of the
/// scavenger in another; a phase begins when the one before it is over. The records come phase by phase, and actor by actor in each. The gate is called
/// round each operation, and all threads share what gives blocks another size. A request for whole pages waits for the lock of its heap's index, and so does a thread that hands on the runs of large blocks which it
/// ended; nothing else waits within a phase. The result is the state of the region at the end, at which no actor holds a grain, has a right or owes anything.
///
/// Takes no memory. Beside the operations it costs a look at the epoch for each thread of a phase, the stop of each thread at the end, and
/// for each phase a pass over its operations for each of its threads, and one over its records.
pub fn on_threads<R: Threads + Wait + Sync, G: Gate + Sync, M: Remake + Sync>(
    rt: &R,
    plan: &Plan,
    kit: SharedKit,
    gate: &G,
    remake: &M,
    out: &mut Records,
) -> State
    requires plan { (text : List ℕ) × (length text ≤ 16777216) × IsPlanOf text plan.now }
    requires kit { IsKitOf plan.now kit }
    requires empty { records_in out.old ≡ [] }
    requires room { plan.now.total + length (phases_of plan.now) + 1 ≤ room_of out.old }
    ensures { Shows OnThreads plan.now (records_in out.new) result }
{
    on_threads_with_rooms(rt, plan, kit, gate, remake, out).0
}
