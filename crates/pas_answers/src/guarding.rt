//! What a keeper does for a guarded request, and at the close.
ghost use Rattle.std.specs.Prelude.{◌≡◌, ◌≤◌, ◌<◌, ◌+◌, ◌-◌, ◌/◌};
ghost use Rattle.pas_steps.specs.Desks.{CanCall};
ghost use Rattle.pas_profile.specs.Profiles.{IsAdmitted};
ghost use Rattle.pas_answers.specs.{Calls.MayStand, Keeping.{MayTry, TriesRequest, MayLowerAll, LowersAll}};

use crate::answering::push_events;
use pas_guard::GuardBook;
use pas_profile::Block;
use pas_profile::limits::PAGE_BYTES;
use pas_records::{Record, Records, Said};
use pas_steps::Desk;

/// What is said of a guard that went up round a block of so many whole pages.
fn raised(block: Block, pages: u32, name: u32) -> Said
    requires region { 4096 ≤ block.name.address.0 }
    requires pages { pages ≤ 16384 }
    ensures { result ≡ Said.Guarded (block.name.address.0 / 4096 - 1) (block.name.address.0 / 4096 + pages) name }
{
    let first = block.name.address.0 / PAGE_BYTES;
    Said::Guarded {
        low: first - 1,
        high: first + pages,
        name,
    }
}

/// Has the keeper of this desk try a guarded request for whole pages: it lowers the guards whose blocks have ended, and raises one for the request, where it
/// finds a run. The block that it gave, if any; where there is none the thread answers the request. What it says, and its events, come to the records.
pub fn try_guarded<D: Desk>(
    desk: &mut D,
    book: &mut GuardBook,
    name: u32,
    heap: u8,
    size: u32,
    align: u32,
    out: &mut Records,
) -> Option<Block>
    requires admitted { IsAdmitted (D.standing desk.old).seat.profile size align heap }
    requires large { 2048 < size }
    requires can { CanCall (D.standing desk.old) (MayTry (D.standing desk.old).seat.profile book.old size (D.spare_of desk.old) out.old) }
    ensures tries { TriesRequest (record { name = name; heap = heap; size = size; align = align }) book.old book.new out.old out.new (D.standing desk.old) (D.standing desk.new) result }
    ensures stands { MayStand (D.standing desk.old).seat.profile result }
    ensures home { D.home desk.new ≡ D.home desk.old }
{
    let pages = (size + (PAGE_BYTES - 1)) / PAGE_BYTES;
    book.sweep(desk, false, out);
    let before = desk.shown().len();
    let block = book.raise(desk, heap, pages);
    push_events(desk.shown(), before, out);
    if let Some(block) = block {
        out.push(Record::Said(desk.actor(), raised(block, pages, name)));
    }
    block
}

/// Has the keeper of this desk lower all its guards, which it says.
pub fn lower_all<D: Desk>(desk: &mut D, book: &mut GuardBook, out: &mut Records)
    requires can { CanCall (D.standing desk.old) (MayLowerAll (D.standing desk.old).seat.profile book.old out.old) }
    ensures lowers { LowersAll book.old book.new out.old out.new (D.standing desk.old) (D.standing desk.new) }
    ensures home { D.home desk.new ≡ D.home desk.old }
{
    book.sweep(desk, true, out);
}
