//! Filling all sheets with the lines of a round, in several threads at once.
ghost use Rattle.std.specs.Prelude.{◌≡◌, ◌<◌, ◌≤◌, ◌+◌, ◌++◌, ℕ, All, length, get_or};
ghost use Rattle.pas_records.specs.{Lines.{CanShow, line_of, lines_of}, Texts.{part_of, texts_of}, declared.sheets.Sheet.Sheet as TheSheet};
ghost use Rattle.pas_records.specs.declared.{sheets.TheConstants.SHEET_BYTES, text.TheConstants.LINE_BYTES};

use crate::lines::push_record;
use crate::record::Record;
use crate::sheets::{Batch, ROUND_RECORDS, SHEET_RECORDS, SHEETS, Sheet};
use crate::text::Line;
use std::thread::{Threads, available_parallelism, for_each_mut};

/// How many threads are worth starting: as many as there are processors, or one where that isn't known.
pub(crate) fn useful_threads<R: Threads>(rt: &R) -> usize
    ensures { 0 < result }
{
    match available_parallelism(rt) {
        Ok(count) => count.get(),
        Err(_) => 1,
    }
}

/// The records of the sheet at this place. Those after the round's last record have none.
#[tactic(auto, using(crate::proofs::Dealt::part_is))]
fn part(round: &[Record], place: usize) -> &[Record]
    requires { place < SHEETS }
    ensures { result.now ≡ part_of round.now place }
{
    let rest = &round[round.len().min(place * SHEET_RECORDS)..];
    &rest[..rest.len().min(SHEET_RECORDS)]
}

/// Adds the line of the record.
fn push_line(sheet: &mut Sheet, item: &Record)
    requires shown { CanShow item.now }
    requires room { length sheet.old.text.items + LINE_BYTES ≤ SHEET_BYTES }
    ensures bytes { sheet.new.text.items ≡ sheet.old.text.items ++ line_of item.now }
    ensures short { length sheet.new.text.items ≤ length sheet.old.text.items + LINE_BYTES }
{
    let mut line = Line::new();
    push_record(&mut line, item);
    sheet.push(line.as_str().as_bytes());
}

/// Writes the lines of these records on the sheet, in place of what it held.
fn fill(sheet: &mut Sheet, records: &[Record])
    requires few { length records.now ≤ SHEET_RECORDS }
    requires shown { All CanShow records.now }
    ensures { sheet.new.text.items ≡ lines_of records.now }
{
    sheet.clear();
    for item in records {
        push_line(sheet, item);
    }
}

/// Fills the sheet at this place with the lines of its part of the round.
fn fill_at(sheet: &mut Sheet, round: &[Record], place: usize)
    requires place { place < SHEETS }
    requires shown { All CanShow round.now }
    ensures { sheet.new.text.items ≡ lines_of (part_of round.now place) }
{
    fill(sheet, part(round, place));
}

/// Fills each sheet with the lines of its part of the round, in at most so many threads.
fn fill_all<R: Threads + Sync>(rt: &R, sheets: &mut [Sheet], round: &[Record], threads: usize)
    requires some { 0 < threads }
    requires few { length sheets.old ≤ SHEETS }
    requires shown { All CanShow round.now }
    ensures { (place : ℕ) (d : TheSheet) → place < length sheets.old → (get_or sheets.new place d).text.items ≡ lines_of (part_of round.now place) }
{
    for_each_mut(
        rt,
        sheets,
        threads,
        &|place, sheet| fill_at(sheet, round, place),
    );
}

/// Lets the batch hold the lines of a round, made in at most so many threads. Sheets after the round's last record hold none.
pub(crate) fn fill_batch<R: Threads + Sync>(
    rt: &R,
    round: &[Record],
    threads: usize,
    batch: &mut Batch,
)
    requires some { 0 < threads }
    requires few { length round.now ≤ ROUND_RECORDS }
    requires shown { All CanShow round.now }
    ensures { texts_of batch.new.sheets.items ≡ lines_of round.now }
{
    fill_all(rt, &mut batch.sheets, round, threads);
}
