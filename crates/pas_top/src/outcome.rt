//! What an input comes to on threads.
ghost use Rattle.std.specs.Prelude.{◌≡◌, ◌≤◌, ◌+◌, ℕ, List, [], Some, IfOk, length};
ghost use Rattle.pas_trace.specs.Plans.{IsPlanOf};
ghost use Rattle.pas_answers.specs.{Replays.phases_of, Ways.OnThreads};
ghost use Rattle.pas_io.specs.Told.{Tells};
ghost use Rattle.pas_telling.specs.Outcomes.{IsWritable, outcome_text, outcome_status};
ghost use Rattle.pas_calls.specs.Outcomes.{IsOutcome, ShowsBy};
ghost use Rattle.pas_records.specs.Rooms.{records_in, room_of};

use crate::opening::{kit_of, read_for_threads};
use pas_calls::remaking::Reallocation;
use pas_io::Sink;
use pas_profile::NoMemory;
use pas_records::Records;
use pas_replay::{PlainKit, by_one_thread, is_of_one_thread, records_for};
use pas_steps::State;
use pas_telling::{Manner, Outcome};
use pas_threads::{Ahead, OpenGate, Rooms, on_threads_with_rooms};
use pas_trace::{Plan, ReadFault};
use std::alloc::Global;
use std::sync::Wait;
use std::thread::Threads;

/// The plan of a replay that is over, and the rooms of its threads, where it was on threads. On threads they are let go while the lines are written.
#[derive(Drop)]
pub(crate) struct Spent {
    _plan: Plan,
    _rooms: Option<Rooms>,
}

/// Reads the bytes, lets them go, and replays the trace that they are on threads. What the replay needs is made while the bytes are read. What the replay leaves
/// comes beside its outcome. NoMemory comes before the replay begins, or not at all.
pub(crate) fn replayed_on_threads<R: Threads + Wait + Sync>(
    rt: &R,
    alloc: Global,
    bytes: Vec<u8>,
) -> Result<(Outcome, Option<Spent>), NoMemory>
    requires { length bytes.items ≤ 16777216 }
    ensures { IfOk result (λ told. IsOutcome OnThreads bytes.items told.0) }
{
    let (read, ahead) = read_for_threads(rt, alloc, &bytes);
    drop(bytes);
    let plan = match read {
        Ok(plan) => plan,
        Err(ReadFault::Trace(fault)) => return Ok((Outcome::Faulty(fault), None)),
        Err(ReadFault::NoMemory) => return Err(NoMemory),
    };
    let mut records = records_for(alloc, &plan)?;
    let (state, rooms) = replay_on_threads(rt, alloc, &plan, ahead, &mut records)?;
    let spent = Spent {
        _plan: plan,
        _rooms: rooms,
    };
    Ok((Outcome::Replayed(records, state), Some(spent)))
}

/// Writes what an input comes to, as `pas_telling` does. What its replay left is let go meanwhile.
pub(crate) fn tell_outcome<R: Threads + Sync, K: Sink>(
    rt: &R,
    alloc: Global,
    manner: Manner,
    sink: &mut K,
    outcome: Outcome,
    spent: Option<Spent>,
) -> u8
    requires { IsWritable outcome }
    ensures { Tells (K.held sink.old) (K.held sink.new) (K.faults sink.old) (K.faults sink.new) (outcome_text outcome) (outcome_status outcome) result }
{
    pas_telling::tell_outcome(rt, alloc, manner, sink, outcome, spent)
}

/// Replays the plan on threads, with what was made ahead for it, if that was. A plan of one thread has nothing that could be at once, and is
/// replayed over plain words, in the order of its text.
fn replay_on_threads<R: Threads + Wait + Sync>(
    rt: &R,
    alloc: Global,
    plan: &Plan,
    ahead: Option<Ahead>,
    out: &mut Records,
) -> Result<(State, Option<Rooms>), NoMemory>
    requires plan { (text : List ℕ) × (length text ≤ 16777216) × IsPlanOf text plan.now }
    requires empty { records_in out.old ≡ [] }
    requires room { plan.now.total + length (phases_of plan.now) + 1 ≤ room_of out.old }
    ensures { IfOk result (λ ended. ShowsBy OnThreads plan.now (records_in out.new) ended.0) }
{
    if is_of_one_thread(plan) {
        let kit = PlainKit::try_new(alloc, plan)?;
        return Ok((by_one_thread(plan, kit, &Reallocation, out), None));
    }
    let kit = kit_of(alloc, plan, ahead)?;
    let (state, rooms) = on_threads_with_rooms(rt, plan, kit, &OpenGate, &Reallocation, out);
    Ok((state, Some(rooms)))
}
