//! How what an input comes to is written.
ghost use Rattle.std.specs.Prelude.{◌≡◌, ◌≤◌, OnOk, OnErr, length};
ghost use Rattle.pas_io.specs.Told.{Rose, Tells, Writes, WritesFront};
ghost use Rattle.pas_records.specs.Rooms.{records_in};
ghost use Rattle.pas_telling.specs.{Faults.{fault_text, reason_text}, Outcomes.{IsShown, IsWritable, outcome_status, outcome_text, shown_text}};

use crate::manner::Manner;
use crate::outcome::Outcome;
use crate::settling::write_and_settle;
use pas_io::whole::write_all;
use pas_io::{Failed, Sink};
use pas_records::text::push_field;
use pas_records::{Line, Records, write_lines};
use pas_report::report;
use pas_steps::State;
use pas_trace::{Reason, TraceFault};
use std::alloc::Global;
use std::thread::Threads;

/// Writes what an input came to, and answers the status, or 4 where the sink failed. What is spent is let go then: of a replay on threads in another thread,
/// which makes the report too, while the lines are written.
pub fn tell_outcome<R: Threads + Sync, K: Sink, T: Drop + Send>(
    rt: &R,
    alloc: Global,
    manner: Manner,
    sink: &mut K,
    outcome: Outcome,
    spent: T,
) -> u8
    requires { IsWritable outcome }
    ensures { Tells (K.held sink.old) (K.held sink.new) (K.faults sink.old) (K.faults sink.new) (outcome_text outcome) (outcome_status outcome) result }
{
    match outcome {
        Outcome::Replayed(records, state) => match write_replayed(
            rt, alloc, manner, &records, &state, spent, sink,
        ) {
            Ok(()) => 0,
            Err(Failed) => 4,
        },
        Outcome::Faulty(fault) => tell(sink, fault_line(fault).as_str(), 1),
    }
}

/// Writes the whole text, and answers the status, or 4 where the sink failed.
pub fn tell<K: Sink>(sink: &mut K, text: &str, status: u8) -> u8
    ensures { Tells (K.held sink.old) (K.held sink.new) (K.faults sink.old) (K.faults sink.new) text.now status result }
{
    match write_all(sink, text.as_bytes()) {
        Ok(()) => status,
        Err(Failed) => 4,
    }
}

/// Writes the lines of the records and then the report of the region's state.
fn write_settled<K: Sink>(records: &Records, state: &State, sink: &mut K) -> Result<(), Failed>
    requires { IsShown (records_in records.now) state.now }
    ensures whole { OnOk result (Writes (K.held sink.old) (K.held sink.new) (shown_text (records_in records.now) state.now)) }
    ensures front { OnErr result (WritesFront (K.held sink.old) (K.held sink.new) (shown_text (records_in records.now) state.now)) }
    ensures sound { OnOk result (K.faults sink.new ≡ K.faults sink.old) }
    ensures failed { OnErr result (Rose (K.faults sink.old) (K.faults sink.new)) }
{
    write_lines(records.as_slice(), sink)?;
    report(state, sink)
}

/// Writes the lines of the records and then the report of the region's state: of a replay on threads with the help of others.
fn write_replayed<R: Threads + Sync, K: Sink, T: Drop + Send>(
    rt: &R,
    alloc: Global,
    manner: Manner,
    records: &Records,
    state: &State,
    spent: T,
    sink: &mut K,
) -> Result<(), Failed>
    requires { IsShown (records_in records.now) state.now }
    ensures whole { OnOk result (Writes (K.held sink.old) (K.held sink.new) (shown_text (records_in records.now) state.now)) }
    ensures front { OnErr result (WritesFront (K.held sink.old) (K.held sink.new) (shown_text (records_in records.now) state.now)) }
    ensures sound { OnOk result (K.faults sink.new ≡ K.faults sink.old) }
    ensures failed { OnErr result (Rose (K.faults sink.old) (K.faults sink.new)) }
{
    match manner {
        Manner::InOrder => write_settled(records, state, sink),
        Manner::OnThreads => write_and_settle(rt, alloc, records, state, spent, sink),
    }
}

/// The text of a reason.
fn reason_name(reason: Reason) -> &'static str
    ensures text { result.now ≡ reason_text reason }
    ensures short { length result.now ≤ 13 }
{
    match reason {
        Reason::BadHeader => "BadHeader",
        Reason::BadWord => "BadWord",
        Reason::BadNumber => "BadNumber",
        Reason::BadThread => "BadThread",
        Reason::BadHeap => "BadHeap",
        Reason::BadSize => "BadSize",
        Reason::BadAlign => "BadAlign",
        Reason::NameTaken => "NameTaken",
        Reason::NameUnknown => "NameUnknown",
        Reason::TooEarly => "TooEarly",
        Reason::TooManyOps => "TooManyOps",
        Reason::TraceTooLarge => "TraceTooLarge",
    }
}

/// The line of a trace fault. It takes no memory.
pub fn fault_line(fault: TraceFault) -> Line
    ensures { result.bytes ≡ fault_text fault }
{
    let mut line = Line::new();
    push_field(&mut line, "line ", fault.line);
    line.push_str(": ");
    line.push_str(reason_name(fault.reason));
    line.push_str("\n");
    line
}
