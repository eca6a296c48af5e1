//! A large block is allocated.
ghost use Rattle.std.specs.Prelude.{◌≡◌, ◌≤◌, ◌<◌, ◌+◌, ℕ, Option};
ghost use Rattle.pas_scan.specs.Runs.{large_directory};
ghost use Rattle.pas_steps.specs.Desks.{CanCall};
ghost use Rattle.pas_large.specs.{Allocates.{AllocatesByScan, AllocatesLarge}, Finds.FindRoom};

use crate::door::Door;
use crate::finding::find_run;
use crate::giving::give_run;
use crate::naming::claim_named;
use crate::refusing::refuse;
use pas_profile::{Block, Directory, Kind, NoRoom};
use pas_steps::Desk;

/// A block of so many whole pages, by the scan alone: the lowest run of pages without a deed, or offered and free, that can be claimed.
fn alloc_by_scan<D: Desk>(desk: &mut D, heap: u8, pages: u32) -> Result<Block, NoRoom>
    requires heap { heap < (D.standing desk.old).seat.profile.heaps }
    requires pages { 1 ≤ pages }
    requires can { CanCall (D.standing desk.old) (FindRoom (D.standing desk.old).seat.profile (large_directory heap) (pages + 1) (D.spare_of desk.old)) }
    ensures allocates { AllocatesByScan heap pages D.tells (D.standing desk.old) (D.standing desk.new) result }
    ensures home { D.home desk.new ≡ D.home desk.old }
{
    let directory = Directory {
        heap,
        kind: Kind::Large,
    };
    match find_run(desk, heap, pages) {
        Some(first) => Ok(give_run(desk, first, pages, directory)),
        None => Err(refuse(desk, directory)),
    }
}

/// A block of so many whole pages: the run that the door names, where each page of it is one of the heap's large pages, offered and free; otherwise the
/// lowest run of pages without a deed, or offered and free, that can be claimed.
///
/// Its pages are backed from the lowest up, the block is given, and then the pages are left. `Held` has the lowest page of the heap's large pages
/// that was read as neither offered nor parked, and `NoSpace` comes where there is none. A refusal backs nothing; the deeds that broken claims made
/// stay. At most one event for each deed that isn't known, and `pages + 1` more. Where the door's run serves, no deed is made, and the call makes at
/// most 18 steps for each of its pages, and two more.
pub fn alloc<D: Desk, O: Door>(
    desk: &mut D,
    door: &mut O,
    heap: u8,
    pages: u32,
) -> Result<Block, NoRoom>
    requires heap { heap < (D.standing desk.old).seat.profile.heaps }
    requires pages { 1 ≤ pages }
    requires can { CanCall (D.standing desk.old) (FindRoom (D.standing desk.old).seat.profile (large_directory heap) (pages + 1) (D.spare_of desk.old)) }
    ensures allocates { (found : Option ℕ) × O.answers door.old door.new heap pages found × AllocatesLarge heap pages found D.tells (D.standing desk.old) (D.standing desk.new) result }
    ensures home { D.home desk.new ≡ D.home desk.old }
{
    let directory = Directory {
        heap,
        kind: Kind::Large,
    };
    match claim_named(desk, door, heap, pages) {
        Some(first) => Ok(give_run(desk, first, pages, directory)),
        None => alloc_by_scan(desk, heap, pages),
    }
}
