//! What an input comes to in the order of its text.
ghost use Rattle.std.specs.Prelude.{◌≡◌, ◌≢◌, ◌≤◌, ◌+◌, ◌⊎◌, ℕ, List, [], Option, Some, IfOk, length};
ghost use Rattle.pas_io.specs.{Inputs.Takes, Reached.StopsAtEnd};
ghost use Rattle.pas_io.specs.declared.reach.Reach.TheVariants as Reach;
ghost use Rattle.pas_trace.specs.{Plans.IsPlanOf, Scripts.IsScriptOf, declared.plan.Plan.Plan as ThePlan};
ghost use Rattle.pas_answers.specs.{Replays.{phases_of, Shows}, Ways.InOrder};
ghost use Rattle.pas_replay.specs.Kits.{MayReplay};
ghost use Rattle.pas_calls.specs.{Ends.EndsReplay, Givens.IsAllOf, Ordered.{Orders, TellsLines, TellsReplay}, Outcomes.IsOutcome, Outputs.most_bytes};
ghost use Rattle.pas_records.specs.Rooms.{records_in, room_of};

use crate::judging::TOO_LONG;
use crate::line_writer::{LineWriter, WAITING};
use crate::reading::{Given, read_given};
use crate::remaking::Reallocation;
use pas_io::whole::Stop;
use pas_io::{Failed, Sink, Source};
use pas_profile::NoMemory;
use pas_records::Records;
use pas_replay::{PlainKit, in_order, in_order_to, records_for, records_for_taker};
use pas_report::report;
use pas_steps::State;
use pas_telling::{Outcome, fault_line, tell};
use pas_trace::{Course, Operations, Plan, ReadFault, Script, read_trace};
use std::alloc::Global;

/// Reads the source to its end, a piece at a time, replays the trace that it gives in the order of its text, and writes the lines of what was said as they
/// come, and then the report; or writes the first fault. It starts no thread and waits for nobody. The status is 0 where the replay was written and 1 where the
/// first fault was; 3 where a read failed, 4 where a write failed, 5 where the program was out of memory, and 6 where the input is too long. All input is
/// read and all memory is taken before anything is written.
pub fn order_input<S: Source, K: Sink>(alloc: Global, source: &mut S, sink: &mut K) -> u8
    ensures ends { EndsReplay InOrder (S.rest source.old) (S.rest source.new) (S.faults source.old) (S.faults source.new) (K.held sink.old) (K.held sink.new) (K.faults sink.old) (K.faults sink.new) result }
    ensures taken { (bytes : List ℕ) → S.rest source.old ≡ Some bytes → Takes bytes (S.rest source.new) (most_bytes + 1) }
    ensures ended { (bytes : List ℕ) → S.rest source.old ≡ Some bytes → (result ≡ 0) ⊎ (result ≡ 1) ⊎ (result ≡ 8) → S.rest source.new ≡ Some [] }
    ensures stops { S.reach source.old ≡ Reach.Within → StopsAtEnd (S.reach source.new) }
    ensures read_up { S.reach source.old ≡ Reach.Within → (result ≡ 0) ⊎ (result ≡ 1) ⊎ (result ≡ 8) → S.reach source.new ≡ Reach.AtEnd }
    ensures source_sound { result ≢ 3 → S.faults source.new ≡ S.faults source.old }
    ensures unheard { (result ≡ 3) ⊎ (result ≡ 5) → sink.new ≡ sink.old }
{
    match read_given(alloc, source) {
        Ok(Given::Trace(script)) => order_script(alloc, &script, sink),
        Ok(Given::Faulty(fault)) => tell(sink, fault_line(fault).as_str(), 1),
        Ok(Given::TooLong) => tell(sink, TOO_LONG, 6),
        Err(Stop::Fault) => 3,
        Err(Stop::Memory) => 5,
    }
}

/// Replays the script in the order of its text, and writes the lines of what was said as they come, and then the report. The status is 5 where memory was
/// wanting: all is taken before anything is written.
fn order_script<K: Sink>(alloc: Global, script: &Script, sink: &mut K) -> u8
    requires { (text : List ℕ) × (length text ≤ 16777216) × IsScriptOf text script.now }
    ensures told { (rest : Option (List ℕ)) (text : List ℕ) → IsAllOf rest text → IsScriptOf text script.now
        → Orders rest (K.held sink.old) (K.held sink.new) (K.faults sink.old) (K.faults sink.new) result }
    ensures unheard { (result ≡ 3) ⊎ (result ≡ 5) → sink.new ≡ sink.old }
{
    let course = script.course();
    let Ok(waiting) = records_for_taker(alloc, &course, WAITING) else {
        return 5;
    };
    let Ok(kit) = PlainKit::for_course(alloc, &course) else {
        return 5;
    };
    write_in_order(&course, kit, waiting, sink)
}

/// Replays the course in the order of its text, and writes the lines of what was said as they come, and then the report. Takes no memory.
fn write_in_order<P: Operations, K: Sink>(
    course: &Course<'_, P>,
    kit: PlainKit,
    waiting: Records,
    sink: &mut K,
) -> u8
    requires plan { (text : List ℕ) × (plan : ThePlan) × MayReplay P.ops (Some 1023) course.now kit text plan waiting }
    requires empty { records_in waiting ≡ [] }
    ensures { (text : List ℕ) (plan : ThePlan) → MayReplay P.ops (Some 1023) course.now kit text plan waiting
        → TellsReplay plan (K.held sink.old) (K.held sink.new) (K.faults sink.old) (K.faults sink.new) result }
{
    let (state, failed) = write_lines_in_order(course, kit, waiting, sink);
    if failed {
        return 4;
    }
    match report(&state, sink) {
        Ok(()) => 0,
        Err(Failed) => 4,
    }
}

/// Replays the course in the order of its text to its end, and writes the lines of what was said as they come, until a write fails. Answers the region's state
/// afterwards, and whether a write failed.
fn write_lines_in_order<P: Operations, K: Sink>(
    course: &Course<'_, P>,
    kit: PlainKit,
    mut waiting: Records,
    sink: &mut K,
) -> (State, bool)
    requires plan { (text : List ℕ) × (plan : ThePlan) × MayReplay P.ops (Some 1023) course.now kit text plan waiting }
    requires empty { records_in waiting ≡ [] }
    ensures { (text : List ℕ) (plan : ThePlan) → MayReplay P.ops (Some 1023) course.now kit text plan waiting
        → TellsLines plan (K.held sink.old) (K.held sink.new) (K.faults sink.old) (K.faults sink.new) result.0 result.1 }
{
    let mut writer = LineWriter::new(sink);
    let state = in_order_to(course, kit, &Reallocation, &mut waiting, &mut writer);
    writer.write(&mut waiting);
    let failed = writer.has_failed();
    (state, failed)
}

/// Reads the bytes, lets them go, and replays the trace that they are in the order of its text. NoMemory comes before the replay begins, or not at all.
pub(crate) fn outcome_in_order(alloc: Global, bytes: Vec<u8>) -> Result<Outcome, NoMemory>
    requires { length bytes.items ≤ 16777216 }
    ensures { IfOk result (IsOutcome InOrder bytes.items) }
{
    let read = read_trace(alloc, &bytes);
    drop(bytes);
    let plan = match read {
        Ok(plan) => plan,
        Err(ReadFault::Trace(fault)) => return Ok(Outcome::Faulty(fault)),
        Err(ReadFault::NoMemory) => return Err(NoMemory),
    };
    let mut records = records_for(alloc, &plan)?;
    let state = replay_in_order(alloc, &plan, &mut records)?;
    Ok(Outcome::Replayed(records, state))
}

/// Replays the plan in the order of its text, and answers the region's state afterwards. Memory is taken for the kit alone, before the replay begins.
fn replay_in_order(alloc: Global, plan: &Plan, out: &mut Records) -> Result<State, NoMemory>
    requires plan { (text : List ℕ) × (length text ≤ 16777216) × IsPlanOf text plan.now }
    requires empty { records_in out.old ≡ [] }
    requires room { plan.now.total + length (phases_of plan.now) + 1 ≤ room_of out.old }
    ensures { IfOk result (Shows InOrder plan.now (records_in out.new)) }
{
    let kit = PlainKit::try_new(alloc, plan)?;
    Ok(in_order(plan, kit, &Reallocation, out))
}
