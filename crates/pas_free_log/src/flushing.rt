//! The flush of a log.
ghost use Rattle.std.specs.Prelude.{◌≡◌, ◌≤◌, ◌+◌, [], All, length};
ghost use Rattle.pas_steps.specs.{Desks.CanCall, Clear.{IsClear, HasNothing}};
ghost use Rattle.pas_free_log.specs.{Logs.entries_in, Conditions.{IsEntryOf, IsNameOf, MayEnd}, Flushes.{EndsEntry, Flushes, EndsName}};

use crate::ending::{Outcome, end_logged};
use crate::log::FreeLog;
use crate::noting::{EndedRun, large_run, note};
use crate::returning::return_run;
use arrayvec::ArrayVec;
use pas_profile::limits::{GRAIN_BYTES, MOST_LOGGED};
use pas_profile::{Entry, Name, Word};
use pas_steps::Desk;

/// Ends the block of the entry's name, and stamps its pages and puts its grains back where it ended. Answers the heap and the pages of a large block
/// that ended. One event.
fn end_entry<D: Desk>(desk: &mut D, entry: Entry) -> Option<EndedRun>
    requires entry { IsEntryOf (D.standing desk.old).seat.profile entry }
    requires room { 1 ≤ D.spare_of desk.old }
    requires can { CanCall (D.standing desk.old) MayEnd }
    ensures ends { EndsEntry entry (D.standing desk.old) (D.standing desk.new) result }
    ensures spare { D.spare_of desk.new + 1 ≡ D.spare_of desk.old }
    ensures home { D.home desk.new ≡ D.home desk.old }
{
    let (outcome, directory) = end_logged(desk, entry);
    match outcome {
        Outcome::Ended { grains } => {
            return_run(desk, entry.name.address.0 / GRAIN_BYTES, grains);
            large_run(entry.name, grains, directory)
        }
        Outcome::Refused { read: _ } => None,
    }
}

/// Reads the epoch, and ends the blocks of the logged names in order. The log is empty afterwards.
///
/// Each name makes one event: `End` with the epoch that was read, or `Reject` where no block of this name lives. The pages of a block that
/// ended are stamped, its grains are free again, and nothing is owed on its pages. The actor holds the grains and has the rights that it
/// had before. The heap and the pages of each large block that ended are added to `ended`, in order, while fewer than 64 are there, and forgotten
/// otherwise. A block is large where it begins on a page of large blocks, at the page's first byte, and takes whole pages. One step, and for each name at most three, and fourteen for each page of its block.
pub fn flush<D: Desk>(desk: &mut D, log: &mut FreeLog, ended: &mut ArrayVec<EndedRun, MOST_LOGGED>)
    requires entries { All (IsEntryOf (D.standing desk.old).seat.profile) (entries_in log.old) }
    requires room { length (entries_in log.old) ≤ D.spare_of desk.old }
    requires can { CanCall (D.standing desk.old) IsClear }
    ensures flushes { Flushes (entries_in log.old) ended.old.items ended.new.items (D.standing desk.old) (D.standing desk.new) }
    ensures empty { entries_in log.new ≡ [] }
    ensures spare { D.spare_of desk.new + length (entries_in log.old) ≡ D.spare_of desk.old }
    ensures home { D.home desk.new ≡ D.home desk.old }
{
    desk.look(Word::Epoch);
    let entries = log.as_slice();
    for entry in entries {
        let run = end_entry(desk, *entry);
        note(ended, run);
    }
    log.clear();
}

/// Ends the block of this name, as a flush does of a log that has this name alone.
///
/// One event: `End` with the epoch that is read, or `Reject` where no block of this name lives. An actor that had nothing has nothing
/// afterwards. At most four steps, and fourteen for each page of a block that ended.
pub fn end_one<D: Desk>(desk: &mut D, name: Name)
    requires name { IsNameOf (D.standing desk.old).seat.profile name }
    requires room { 1 ≤ D.spare_of desk.old }
    requires can { CanCall (D.standing desk.old) IsClear }
    ensures ends { EndsName name (D.standing desk.old) (D.standing desk.new) }
    ensures rests { CanCall (D.standing desk.old) HasNothing → CanCall (D.standing desk.new) HasNothing }
    ensures spare { D.spare_of desk.new + 1 ≡ D.spare_of desk.old }
    ensures home { D.home desk.new ≡ D.home desk.old }
{
    let mut log = FreeLog::new();
    log.add(name);
    let mut ended = ArrayVec::new();
    flush(desk, &mut log, &mut ended);
}
