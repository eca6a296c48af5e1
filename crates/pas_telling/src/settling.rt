//! The end of a replay on threads: the report is made, and what is spent is let go, while the lines of the records are written.
ghost use Rattle.std.specs.Prelude.{◌≡◌, ◌≤◌, All, IfSome, OnOk, OnErr};
ghost use Rattle.pas_io.specs.{Told.{Rose, Writes, WritesFront}, Taken.taken};
ghost use Rattle.pas_records.specs.{Lines.{CanShow, lines_of}, Rooms.records_in};
ghost use Rattle.pas_report.specs.Counts.{AreDeedWords, report_by_words};
ghost use Rattle.pas_telling.specs.Outcomes.{IsShown, shown_text};

use pas_io::memory::MemorySink;
use pas_io::whole::write_all;
use pas_io::{Failed, Sink};
use pas_profile::NoMemory;
use pas_records::{LINE_BYTES, Record, Records, Sheets, write_lines, write_lines_on};
use pas_report::report;
use pas_steps::State;
use std::alloc::Global;
use std::thread::{Threads, join_mut};

/// Fewer records than this aren't worth the memory of the sheets and the start of threads.
const MANY_RECORDS: usize = 100_000;

/// The report of the state, or None where memory was wanting for it.
fn report_in_memory(alloc: Global, state: &State) -> Option<MemorySink>
    requires { AreDeedWords state.now }
    ensures { IfSome result (λ text. taken text ≡ report_by_words state.now) }
{
    let lines = state.profile().pages as usize + 2;
    let buffer = vec![in alloc; 0u8; lines * LINE_BYTES].ok()?;
    let mut text = MemorySink::new(buffer, u32::MAX, Vec::new(alloc));
    report(state, &mut text).ok()?;
    Some(text)
}

/// Lets what is spent go, and makes the report of the state.
fn settle<T: Drop>(alloc: Global, state: &State, spent: &mut Option<T>) -> Option<MemorySink>
    requires { AreDeedWords state.now }
    ensures { IfSome result (λ text. taken text ≡ report_by_words state.now) }
{
    drop(spent.take());
    report_in_memory(alloc, state)
}

/// Writes the lines of the records: those of many records are made by several threads, where there is memory for that.
fn write_records<R: Threads + Sync, K: Sink>(
    rt: &R,
    alloc: Global,
    records: &[Record],
    sink: &mut K,
) -> Result<(), Failed>
    requires { All CanShow records.now }
    ensures whole { OnOk result (Writes (K.held sink.old) (K.held sink.new) (lines_of records.now)) }
    ensures front { OnErr result (WritesFront (K.held sink.old) (K.held sink.new) (lines_of records.now)) }
    ensures sound { OnOk result (K.faults sink.new ≡ K.faults sink.old) }
    ensures failed { OnErr result (Rose (K.faults sink.old) (K.faults sink.new)) }
    ensures count { K.faults sink.old ≤ K.faults sink.new }
{
    if records.len() < MANY_RECORDS {
        return write_lines(records, sink);
    }
    match Sheets::try_new(alloc) {
        Ok(mut sheets) => write_lines_on(rt, &mut sheets, records, sink),
        Err(NoMemory) => write_lines(records, sink),
    }
}

/// Writes the report of the state, which may have been made.
fn write_report<K: Sink>(
    state: &State,
    made: Option<MemorySink>,
    sink: &mut K,
) -> Result<(), Failed>
    requires deeds { AreDeedWords state.now }
    requires made { IfSome made (λ text. taken text ≡ report_by_words state.now) }
    ensures whole { OnOk result (Writes (K.held sink.old) (K.held sink.new) (report_by_words state.now)) }
    ensures front { OnErr result (WritesFront (K.held sink.old) (K.held sink.new) (report_by_words state.now)) }
    ensures sound { OnOk result (K.faults sink.new ≡ K.faults sink.old) }
    ensures failed { OnErr result (Rose (K.faults sink.old) (K.faults sink.new)) }
{
    match made {
        Some(text) => write_all(sink, text.held()),
        None => report(state, sink),
    }
}

/// Lets what is spent go and makes the report of the state in another thread, while the lines of the records are written in this one.
fn settle_and_write<R: Threads + Sync, K: Sink, T: Drop + Send>(
    rt: &R,
    alloc: Global,
    records: &[Record],
    state: &State,
    spent: &mut Option<T>,
    sink: &mut K,
) -> (Option<MemorySink>, Result<(), Failed>)
    requires deeds { AreDeedWords state.now }
    requires shown { All CanShow records.now }
    ensures made { IfSome result.0 (λ text. taken text ≡ report_by_words state.now) }
    ensures whole { OnOk result.1 (Writes (K.held sink.old) (K.held sink.new) (lines_of records.now)) }
    ensures front { OnErr result.1 (WritesFront (K.held sink.old) (K.held sink.new) (lines_of records.now)) }
    ensures sound { OnOk result.1 (K.faults sink.new ≡ K.faults sink.old) }
    ensures failed { OnErr result.1 (Rose (K.faults sink.old) (K.faults sink.new)) }
    ensures count { K.faults sink.old ≤ K.faults sink.new }
{
    let theirs = alloc;
    let mut settle = || -> Option<MemorySink>
        requires { AreDeedWords state.now }
        ensures { IfSome result (λ text. taken text ≡ report_by_words state.entry.now) }
    { settle(theirs, state, spent) };
    let mut write = || -> Result<(), Failed>
        requires { All CanShow records.now }
        ensures whole { OnOk result (Writes (K.held sink.entry.now) (K.held sink.exit.now) (lines_of records.entry.now)) }
        ensures front { OnErr result (WritesFront (K.held sink.entry.now) (K.held sink.exit.now) (lines_of records.entry.now)) }
        ensures sound { OnOk result (K.faults sink.exit.now ≡ K.faults sink.entry.now) }
        ensures failed { OnErr result (Rose (K.faults sink.entry.now) (K.faults sink.exit.now)) }
        ensures count { K.faults sink.entry.now ≤ K.faults sink.exit.now }
    { write_records(rt, alloc, records, sink) };
    join_mut(rt, &mut settle, &mut write)
}

/// Writes the lines of the records, while another thread lets what is spent go and makes the report, and then the report.
pub(crate) fn write_and_settle<R: Threads + Sync, K: Sink, T: Drop + Send>(
    rt: &R,
    alloc: Global,
    records: &Records,
    state: &State,
    spent: T,
    sink: &mut K,
) -> Result<(), Failed>
    requires { IsShown (records_in records.now) state.now }
    ensures whole { OnOk result (Writes (K.held sink.old) (K.held sink.new) (shown_text (records_in records.now) state.now)) }
    ensures front { OnErr result (WritesFront (K.held sink.old) (K.held sink.new) (shown_text (records_in records.now) state.now)) }
    ensures sound { OnOk result (K.faults sink.new ≡ K.faults sink.old) }
    ensures failed { OnErr result (Rose (K.faults sink.old) (K.faults sink.new)) }
{
    let mut spent = Some(spent);
    let (made, wrote) = settle_and_write(rt, alloc, records.as_slice(), state, &mut spent, sink);
    match wrote {
        Ok(()) => write_report(state, made, sink),
        Err(Failed) => Err(Failed),
    }
}
