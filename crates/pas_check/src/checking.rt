//! The acts of a plan, in order, and the close.
ghost use Rattle.std.specs.{Prelude.{ℕ, ◌≡◌, ◌+◌, ◌<◌, ◌≤◌, ◌^◌, not, true, List, [], ◌∷◌, ◌++◌, map, length}, List.filter};
ghost use Rattle.pas_bits.specs.Masks.{is_set};
ghost use Rattle.pas_profile.specs.Profiles.{IsValid};
ghost use Rattle.pas_machine.specs.Machines.{profile_of};
ghost use Rattle.pas_trace.specs.Acts.{Act, Ends, Lowers, MarksClose, MarksPhase, ReadsEpoch, Wakes, acts_from, acts_of, acts_of_op, acts_of_ops, close_acts};
ghost use Rattle.pas_trace.specs.{Acts.{idle_stops, numbers_from, phase_acts, threads_where}, EveryPlan.all_ops, Plans.ops_of};
ghost use Rattle.pas_check.specs.{Checks.{TakenTo, ArePlanned, IsPlanned, IsSized, IsSizedAs, threads_in}, Leading.{IsWithin, StaysWithin}, Tables.logs_held};
ghost use Rattle.pas_check.specs.{Tables.names_held, declared.cutting.Cursor.Cursor as TheCursor};

use crate::acting::{Judge, flush, mark_close, mark_phase, operate, pass, stop_idle, tick, wake};
use crate::awake::active;
use crate::cutting::Cursor;
use crate::guarding::lower;
use pas_bits::Mask4;
use pas_trace::{Chore, Op, Phase, Work};

/// How many threads the region has.
fn threads_of(judge: &Judge) -> u8
    ensures { result ≡ threads_in judge.now }
{
    judge.machine.profile().threads
}

/// Each of these threads wakes.
fn wake_all(judge: &mut Judge, awake: Mask4)
    requires sized { IsSized judge.old }
    ensures sized { IsSizedAs judge.old judge.new }
    ensures taken { (text : List ℕ) (at : TheCursor) → IsWithin text at
        → TakenTo text judge.old at judge.new at (map Wakes (threads_where (is_set awake) (threads_in judge.old))) [] true }
{
    let threads = threads_of(judge);
    for index in 0..threads {
        let thread = index + 1;
        if awake.get(thread) {
            wake(judge, thread);
        }
    }
}

/// Takes the lines of the stop of a thread that isn't awake, where it was idle for so many epochs.
fn stop_unless_awake(
    judge: &mut Judge,
    text: &[u8],
    cursor: &mut Cursor,
    awake: Mask4,
    epochs: u64,
    thread: u8,
) -> bool
    requires within { IsWithin text.now cursor.old }
    requires held { thread < logs_held judge.old.logs }
    requires known { thread < length judge.old.idle_since.items }
    ensures sized { IsSizedAs judge.old judge.new }
    ensures taken { TakenTo text.now judge.old cursor.old judge.new cursor.new
        (idle_stops epochs (filter (λ k. not (is_set awake k)) (thread ∷ []))) [] result }
    ensures within { StaysWithin text.now cursor.new result }
{
    if awake.get(thread) {
        return true;
    }
    stop_idle(judge, text, cursor, thread, epochs)
}

/// Takes the lines of an idle operation: the stop of each thread that isn't awake, in order, where it was idle for so many epochs.
fn stop_all_idle(
    judge: &mut Judge,
    text: &[u8],
    cursor: &mut Cursor,
    awake: Mask4,
    epochs: u64,
) -> bool
    requires within { IsWithin text.now cursor.old }
    requires sized { IsSized judge.old }
    ensures sized { IsSizedAs judge.old judge.new }
    ensures taken { TakenTo text.now judge.old cursor.old judge.new cursor.new
        (ReadsEpoch ∷ idle_stops epochs (threads_where (λ k. not (is_set awake k)) (threads_in judge.old))) [] result }
    ensures within { StaysWithin text.now cursor.new result }
{
    let threads = threads_of(judge);
    for index in 0..threads {
        if !stop_unless_awake(judge, text, cursor, awake, epochs, index + 1) {
            return false;
        }
    }
    true
}

/// Takes the lines of an operation, in a phase in which these threads are awake.
fn perform(judge: &mut Judge, text: &[u8], cursor: &mut Cursor, awake: Mask4, op: Op) -> bool
    requires within { IsWithin text.now cursor.old }
    requires valid { IsValid (profile_of judge.old.machine) }
    requires sized { IsSized judge.old }
    requires planned { IsPlanned (profile_of judge.old.machine) (names_held judge.old.names) op }
    ensures sized { IsSizedAs judge.old judge.new }
    ensures taken { TakenTo text.now judge.old cursor.old judge.new cursor.new
        (acts_of_op (threads_where (λ k. not (is_set awake k)) (threads_in judge.old)) op) [] result }
    ensures within { StaysWithin text.now cursor.new result }
{
    match op.work() {
        Work::Own(_) => operate(judge, text, cursor, op),
        Work::Chore(Chore::Tick(epoch)) => tick(judge, text, cursor, epoch),
        Work::Chore(Chore::Pass) => pass(judge, text, cursor),
        Work::Chore(Chore::Idle(epochs)) => stop_all_idle(judge, text, cursor, awake, epochs),
    }
}

/// Takes the lines of the operations of a phase, in order.
fn perform_all(
    judge: &mut Judge,
    text: &[u8],
    cursor: &mut Cursor,
    awake: Mask4,
    ops: &[Op],
) -> bool
    requires within { IsWithin text.now cursor.old }
    requires valid { IsValid (profile_of judge.old.machine) }
    requires sized { IsSized judge.old }
    requires planned { ArePlanned (profile_of judge.old.machine) (names_held judge.old.names) ops.now }
    ensures sized { IsSizedAs judge.old judge.new }
    ensures taken { TakenTo text.now judge.old cursor.old judge.new cursor.new
        (acts_of_ops (threads_where (λ k. not (is_set awake k)) (threads_in judge.old)) ops.now) [] result }
    ensures within { StaysWithin text.now cursor.new result }
{
    for op in ops {
        if !perform(judge, text, cursor, awake, *op) {
            return false;
        }
    }
    true
}

/// Takes the lines of a phase after its mark: its threads wake, and its operations follow.
fn take_phase(judge: &mut Judge, text: &[u8], cursor: &mut Cursor, ops: &[Op]) -> bool
    requires within { IsWithin text.now cursor.old }
    requires valid { IsValid (profile_of judge.old.machine) }
    requires sized { IsSized judge.old }
    requires planned { ArePlanned (profile_of judge.old.machine) (names_held judge.old.names) ops.now }
    ensures sized { IsSizedAs judge.old judge.new }
    ensures taken { TakenTo text.now judge.old cursor.old judge.new cursor.new (phase_acts (threads_in judge.old) ops.now) [] result }
    ensures within { StaysWithin text.now cursor.new result }
{
    let awake = active(ops);
    wake_all(judge, awake);
    perform_all(judge, text, cursor, awake, ops)
}

/// Takes the lines of the later phases, the first of which is the second one, each with its mark.
fn take_later(judge: &mut Judge, text: &[u8], cursor: &mut Cursor, phases: &[Phase]) -> bool
    requires within { IsWithin text.now cursor.old }
    requires few { length phases.now < 2 ^ 31 }
    requires valid { IsValid (profile_of judge.old.machine) }
    requires sized { IsSized judge.old }
    requires planned { ArePlanned (profile_of judge.old.machine) (names_held judge.old.names) (all_ops (map ops_of phases.now)) }
    ensures sized { IsSizedAs judge.old judge.new }
    ensures taken { (keepers : ℕ) → TakenTo text.now judge.old cursor.old judge.new cursor.new
        (acts_from (threads_in judge.old) keepers 2 (map ops_of phases.now)) (close_acts (threads_in judge.old) keepers) result }
    ensures within { StaysWithin text.now cursor.new result }
{
    let mut number = 1;
    for phase in phases {
        number += 1;
        if !mark_phase(judge, text, cursor, number) {
            return false;
        }
        if !take_phase(judge, text, cursor, phase.as_slice()) {
            return false;
        }
    }
    true
}

/// Takes the lines of the phases, in order.
fn take_phases(judge: &mut Judge, text: &[u8], cursor: &mut Cursor, phases: &[Phase]) -> bool
    requires within { IsWithin text.now cursor.old }
    requires few { length phases.now < 2 ^ 31 }
    requires valid { IsValid (profile_of judge.old.machine) }
    requires sized { IsSized judge.old }
    requires planned { ArePlanned (profile_of judge.old.machine) (names_held judge.old.names) (all_ops (map ops_of phases.now)) }
    ensures sized { IsSizedAs judge.old judge.new }
    ensures taken { (keepers : ℕ) → TakenTo text.now judge.old cursor.old judge.new cursor.new
        (acts_of (threads_in judge.old) keepers (map ops_of phases.now)) (close_acts (threads_in judge.old) keepers) result }
    ensures within { StaysWithin text.now cursor.new result }
{
    if phases.len() == 0 {
        return true;
    }
    if !take_phase(judge, text, cursor, phases[0].as_slice()) {
        return false;
    }
    take_later(judge, text, cursor, &phases[1..])
}

/// Takes the lines of each thread's end, in order.
fn end_all(judge: &mut Judge, text: &[u8], cursor: &mut Cursor) -> bool
    requires within { IsWithin text.now cursor.old }
    requires sized { IsSized judge.old }
    ensures sized { IsSizedAs judge.old judge.new }
    ensures taken { TakenTo text.now judge.old cursor.old judge.new cursor.new (map Ends (numbers_from 1 (threads_in judge.old))) [] result }
    ensures within { StaysWithin text.now cursor.new result }
{
    let threads = threads_of(judge);
    for index in 0..threads {
        if !flush(judge, text, cursor, index + 1) {
            return false;
        }
    }
    true
}

/// Takes the lines of the last sweep of each keeper, in order. They are the actors behind the threads.
fn lower_all(judge: &mut Judge, text: &[u8], cursor: &mut Cursor, keepers: u8) -> bool
    requires within { IsWithin text.now cursor.old }
    requires few { threads_in judge.old + keepers < 2 ^ 8 }
    ensures sized { IsSizedAs judge.old judge.new }
    ensures taken { TakenTo text.now judge.old cursor.old judge.new cursor.new (map Lowers (numbers_from (threads_in judge.old + 1) keepers)) [] result }
    ensures within { StaysWithin text.now cursor.new result }
{
    let threads = threads_of(judge);
    for index in threads..threads + keepers {
        if !lower(judge, text, cursor, index + 1) {
            return false;
        }
    }
    true
}

/// Takes the lines of the close: its mark, the end of each thread, and the last sweep of each keeper.
fn take_close(judge: &mut Judge, text: &[u8], cursor: &mut Cursor, keepers: u8) -> bool
    requires within { IsWithin text.now cursor.old }
    requires sized { IsSized judge.old }
    requires few { threads_in judge.old + keepers < 2 ^ 8 }
    ensures sized { IsSizedAs judge.old judge.new }
    ensures taken { TakenTo text.now judge.old cursor.old judge.new cursor.new (close_acts (threads_in judge.old) keepers) [] result }
    ensures within { StaysWithin text.now cursor.new result }
{
    if !mark_close(judge, text, cursor) {
        return false;
    }
    if !end_all(judge, text, cursor) {
        return false;
    }
    lower_all(judge, text, cursor, keepers)
}

/// Takes the lines of all acts of a plan of these phases and so many keepers: of the phases, and of the close.
pub(crate) fn take_acts(
    judge: &mut Judge,
    text: &[u8],
    cursor: &mut Cursor,
    phases: &[Phase],
    keepers: u8,
) -> bool
    requires within { IsWithin text.now cursor.old }
    requires few { length phases.now < 2 ^ 31 }
    requires valid { IsValid (profile_of judge.old.machine) }
    requires sized { IsSized judge.old }
    requires planned { ArePlanned (profile_of judge.old.machine) (names_held judge.old.names) (all_ops (map ops_of phases.now)) }
    requires kept { threads_in judge.old + keepers < 2 ^ 8 }
    ensures sized { IsSizedAs judge.old judge.new }
    ensures taken { TakenTo text.now judge.old cursor.old judge.new cursor.new (acts_of (threads_in judge.old) keepers (map ops_of phases.now)) [] result }
    ensures within { StaysWithin text.now cursor.new result }
{
    if !take_phases(judge, text, cursor, phases) {
        return false;
    }
    take_close(judge, text, cursor, keepers)
}
