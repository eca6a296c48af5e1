//! A thread takes whole pages, and the pages of blocks that ended once more.
ghost use Rattle.std.specs.Prelude.{◌≡◌, ◌+◌, ◌*◌, []};
ghost use Rattle.pas_steps.specs.Desks.{CanCall};
ghost use Rattle.pas_cache.specs.Caches.{cached};
ghost use Rattle.pas_trials.specs.Borrowing.{RestsWithRoom};

use pas_cache::ThreadCache;
use pas_large::Door;
use pas_profile::{Address, Block, Name, NoRoom};
use pas_steps::Desk;

/// The first block on page 999, and that on page 1,000.
const LAST_BUT_ONE: Name = Name {
    address: Address(0x003e_7000),
    turn: 0,
};

const LAST: Name = Name {
    address: Address(0x003e_8000),
    turn: 0,
};

/// Asks for so many blocks of one page of heap 0. At most two events for each, and one for the deed of each page; room for five more is left.
fn borrow_pages<D: Desk, O: Door>(desk: &mut D, door: &mut O, cache: &mut ThreadCache, blocks: u32)
    requires can { CanCall (D.standing desk.old) (RestsWithRoom (D.standing desk.old).seat.profile (cached cache.old) (2 * blocks + 5) (D.spare_of desk.old)) }
    ensures log { (cached cache.new).log ≡ (cached cache.old).log }
    ensures can { CanCall (D.standing desk.new) (RestsWithRoom (D.standing desk.new).seat.profile (cached cache.new) 5 (D.spare_of desk.new)) }
{
    for done in 0..blocks {
        let _ = cache.alloc_large(desk, door, 0, 4096);
    }
}

/// Frees the first blocks on pages 999 and 1,000, ends them, and hands their runs to the door. At most two events.
fn end_last_two<D: Desk, O: Door>(desk: &mut D, door: &mut O, cache: &mut ThreadCache)
    requires none_logged { (cached cache.old).log ≡ [] }
    requires can { CanCall (D.standing desk.old) (RestsWithRoom (D.standing desk.old).seat.profile (cached cache.old) 5 (D.spare_of desk.old)) }
    ensures can { CanCall (D.standing desk.new) (RestsWithRoom (D.standing desk.new).seat.profile (cached cache.new) 3 (D.spare_of desk.new)) }
{
    let _ = cache.free(desk, LAST_BUT_ONE);
    let _ = cache.free(desk, LAST);
    cache.flush(desk);
    cache.settle(door);
}

/// Asks for 1,000 blocks of one page of heap 0, ends those on pages 999 and 1,000, and asks for two pages. What this last request came to, and its number
/// of steps. At most 2,005 events, and one for the deed of each page.
pub fn reuse_pages<D: Desk, O: Door>(
    desk: &mut D,
    door: &mut O,
    cache: &mut ThreadCache,
) -> (Result<Block, NoRoom>, u64)
    requires none_logged { (cached cache.old).log ≡ [] }
    requires can { CanCall (D.standing desk.old) (RestsWithRoom (D.standing desk.old).seat.profile (cached cache.old) 2005 (D.spare_of desk.old)) }
{
    borrow_pages(desk, door, cache, 1000);
    end_last_two(desk, door, cache);
    let before = desk.count();
    let answer = cache.alloc_large(desk, door, 0, 8192);
    (answer, desk.count().saturating_sub(before))
}
