//! The lines of a request: deeds and backs, as many as there are, and then a give or a refusal.
ghost use Rattle.std.specs.Prelude.{ℕ, ◌≡◌, ◌<◌, ◌≤◌, List, length, IfSome};
ghost use Rattle.pas_profile.specs.Profiles.{IsValid};
ghost use Rattle.pas_machine.specs.Machines.{profile_of};
ghost use Rattle.pas_check.specs.{Calls.RequestTaken, Leading.IsWithin};

use crate::cutting::{Cursor, next_line};
use crate::reading::read;
use crate::serving::{Wanted, block_in, is_refusal, take_event};
use pas_machine::Machine;
use pas_profile::Block;

/// Takes the lines of the actor's request, and says what its name stands for from then on. None where a line isn't allowed, or is wanting, before the request
/// ends; the cursor has counted that line.
pub(crate) fn take_request(
    machine: &mut Machine,
    text: &[u8],
    cursor: &mut Cursor,
    actor: u8,
    wanted: &Wanted,
) -> Option<Option<Block>>
    requires within { IsWithin text.now cursor.old }
    requires valid { IsValid (profile_of machine.old) }
    requires align { 0 < wanted.now.align }
    ensures profile { profile_of machine.new ≡ profile_of machine.old }
    ensures heap { IfSome result (λ found. IfSome found (λ block. block.heap ≡ wanted.now.directory.heap)) }
    ensures taken { RequestTaken machine.old machine.new text.now cursor.old cursor.new actor wanted.now result }
    ensures within { IfSome result (λ b. IsWithin text.now cursor.new) }
{
    'lines: loop {
        let Some(line) = next_line(text, cursor) else {
            return None;
        };
        let found = read(line);
        let Some(event) = take_event(machine, &found, actor, wanted) else {
            if is_refusal(machine, &found, actor, wanted) {
                return Some(None);
            }
            return None;
        };
        if let Some(block) = block_in(&event) {
            return Some(Some(block));
        }
    }
}
