//! The lines of a log that is emptied.
ghost use Rattle.std.specs.Prelude.{◌≡◌, ◌≤◌, [], length};
ghost use Rattle.pas_machine.specs.Machines.{profile_of};
ghost use Rattle.pas_check.specs.{Calls.EntriesTaken, Leading.{IsWithin, StaysWithin}};

use crate::cutting::{Cursor, next_line};
use crate::taking::take_entry;
use pas_machine::Machine;
use pas_profile::Entry;

/// Takes the lines of the entries of the actor's log, one for each in order, and says whether all are there. After false the cursor has counted the line that
/// isn't its entry's, or that is wanting.
pub(crate) fn take_entries(
    machine: &mut Machine,
    text: &[u8],
    cursor: &mut Cursor,
    actor: u8,
    log: &[Entry],
    epoch: u64,
) -> bool
    requires within { IsWithin text.now cursor.old }
    ensures profile { profile_of machine.new ≡ profile_of machine.old }
    ensures taken { EntriesTaken machine.old machine.new text.now cursor.old cursor.new actor log.now [] epoch result }
    ensures within { StaysWithin text.now cursor.new result }
{
    for entry in log {
        let Some(line) = next_line(text, cursor) else {
            return false;
        };
        if !take_entry(machine, line, actor, *entry, epoch) {
            return false;
        }
    }
    true
}
