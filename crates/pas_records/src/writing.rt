//! Writing the lines of records, a round of sheets at a time.
ghost use Rattle.std.specs.Prelude.{◌≡◌, ◌<◌, ◌≤◌, All, OnOk, OnErr, length};
ghost use Rattle.pas_io.specs.Told.{Rose, Writes, WritesFront};
ghost use Rattle.pas_records.specs.{Lines.{CanShow, lines_of}, Texts.texts_of};

use crate::filling::{fill_batch, useful_threads};
use crate::record::Record;
use crate::sheets::{Batch, ROUND_RECORDS, Sheet, Sheets};
use pas_io::whole::write_all;
use pas_io::{Failed, Sink};
use std::mem::swap;
use std::thread::{Threads, join_mut};

/// Writes the text of the sheet, up to the sink's first fault. After a failure some first part of it was written.
fn write_sheet<K: Sink>(sheet: &Sheet, sink: &mut K) -> Result<(), Failed>
    ensures whole { OnOk result (Writes (K.held sink.old) (K.held sink.new) sheet.now.text.items) }
    ensures front { OnErr result (WritesFront (K.held sink.old) (K.held sink.new) sheet.now.text.items) }
    ensures sound { OnOk result (K.faults sink.new ≡ K.faults sink.old) }
    ensures failed { OnErr result (Rose (K.faults sink.old) (K.faults sink.new)) }
    ensures count { K.faults sink.old ≤ K.faults sink.new }
{
    write_all(sink, &sheet.text)
}

/// Writes the texts of the sheets in order. After a failure some first part of them was written.
fn write_texts<K: Sink>(sheets: &[Sheet], sink: &mut K) -> Result<(), Failed>
    ensures whole { OnOk result (Writes (K.held sink.old) (K.held sink.new) (texts_of sheets.now)) }
    ensures front { OnErr result (WritesFront (K.held sink.old) (K.held sink.new) (texts_of sheets.now)) }
    ensures sound { OnOk result (K.faults sink.new ≡ K.faults sink.old) }
    ensures failed { OnErr result (Rose (K.faults sink.old) (K.faults sink.new)) }
    ensures count { K.faults sink.old ≤ K.faults sink.new }
{
    for sheet in sheets {
        write_sheet(sheet, sink)?;
    }
    Ok(())
}

/// Writes the full batch, while other threads fill the next one with a round. After a failure some first part of the texts was
/// written, and the next batch is filled all the same.
fn write_and_fill<R: Threads + Sync, K: Sink>(
    rt: &R,
    full: &Batch,
    round: &[Record],
    threads: usize,
    next: &mut Batch,
    sink: &mut K,
) -> Result<(), Failed>
    requires some { 0 < threads }
    requires few { length round.now ≤ ROUND_RECORDS }
    requires shown { All CanShow round.now }
    ensures whole { OnOk result (Writes (K.held sink.old) (K.held sink.new) (texts_of full.now.sheets.items)) }
    ensures front { OnErr result (WritesFront (K.held sink.old) (K.held sink.new) (texts_of full.now.sheets.items)) }
    ensures sound { OnOk result (K.faults sink.new ≡ K.faults sink.old) }
    ensures failed { OnErr result (Rose (K.faults sink.old) (K.faults sink.new)) }
    ensures count { K.faults sink.old ≤ K.faults sink.new }
    ensures next { texts_of next.new.sheets.items ≡ lines_of round.now }
{
    let mut fill = ||
        requires { (0 < threads) × (length round.now ≤ ROUND_RECORDS) × All CanShow round.now }
        ensures { texts_of next.exit.now.sheets.items ≡ lines_of round.entry.now }
    { fill_batch(rt, round, threads, next) };
    let mut write = || -> Result<(), Failed>
        ensures whole { OnOk result (Writes (K.held sink.entry.now) (K.held sink.exit.now) (texts_of full.entry.now.sheets.items)) }
        ensures front { OnErr result (WritesFront (K.held sink.entry.now) (K.held sink.exit.now) (texts_of full.entry.now.sheets.items)) }
        ensures sound { OnOk result (K.faults sink.exit.now ≡ K.faults sink.entry.now) }
        ensures failed { OnErr result (Rose (K.faults sink.entry.now) (K.faults sink.exit.now)) }
        ensures count { K.faults sink.entry.now ≤ K.faults sink.exit.now }
    { write_texts(&full.sheets, sink) };
    let ((), wrote) = join_mut(rt, &mut fill, &mut write);
    wrote
}

/// Writes the line of each record, in order. The lines are made a round of 32,768 records at a time, by as many threads as there are
/// processors, and each round's are written by this one, at most 256 KB at a time, while the others make those of the next. It takes no memory but the threads' stacks, and time in the length of the lines. After a failure some
/// first part of the lines was written.
pub fn write_lines_on<R: Threads + Sync, K: Sink>(
    rt: &R,
    sheets: &mut Sheets,
    records: &[Record],
    sink: &mut K,
) -> Result<(), Failed>
    requires { All CanShow records.now }
    ensures whole { OnOk result (Writes (K.held sink.old) (K.held sink.new) (lines_of records.now)) }
    ensures front { OnErr result (WritesFront (K.held sink.old) (K.held sink.new) (lines_of records.now)) }
    ensures sound { OnOk result (K.faults sink.new ≡ K.faults sink.old) }
    ensures failed { OnErr result (Rose (K.faults sink.old) (K.faults sink.new)) }
    ensures count { K.faults sink.old ≤ K.faults sink.new }
{
    let threads = useful_threads(rt);
    let (first, others) = records.split_at(records.len().min(ROUND_RECORDS));
    fill_batch(rt, first, threads, &mut sheets.full);
    let fillers = threads.saturating_sub(1).max(1);
    for round in others.chunks(ROUND_RECORDS) {
        write_and_fill(rt, &sheets.full, round, fillers, &mut sheets.next, sink)?;
        swap(&mut sheets.full, &mut sheets.next);
    }
    write_texts(&sheets.full.sheets, sink)
}
