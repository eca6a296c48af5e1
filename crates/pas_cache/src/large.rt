//! Whole pages: requests for them, and the runs that are handed on.
ghost use Rattle.std.specs.Prelude.{◌≡◌};

use crate::cache::ThreadCache;
use pas_large::Door;
use pas_profile::limits::PAGE_BYTES;
use pas_profile::{Block, NoRoom};
use pas_steps::Desk;

impl ThreadCache {
    ghost use Rattle.std.specs.Prelude.{◌≡◌, ◌<◌, ◌+◌, ◌-◌, ◌/◌, ℕ, Option, []};
    ghost use Rattle.pas_profile.specs.{Classes.IsAlignment, Requests.route_in};
    ghost use Rattle.pas_profile.specs.declared.directory.Route.TheVariants as TheRoute;
    ghost use Rattle.pas_steps.specs.Desks.{CanCall};
    ghost use Rattle.pas_cache.specs.{Serves.wanted_for, Caches.{cached, seat_of}, Calls.{MayAllocatePages, AllocatesPages, SettlesEach}};

    /// A block of the heap for so many bytes, in whole pages. It begins with a page, so it suits every alignment.
    ///
    /// The door is asked for a range first. Its pages are given where each is one of the heap's large pages, offered and free. Otherwise the lowest run of pages
    /// without a deed, or offered and free, that can be claimed is backed and given.
    /// `Held` has the lowest of the heap's large pages that was in some actor's hands, and `NoSpace` comes where there is none; the deeds that broken
    /// claims made stay. Nothing is cached. There is room for an event for each page of the block, for one more, and for the deed of each page that
    /// isn't known.
    pub fn alloc_large<D: Desk, O: Door>(
        &mut self,
        desk: &mut D,
        door: &mut O,
        heap: u8,
        size: u32,
    ) -> Result<Block, NoRoom>
        requires heap { heap < (D.standing desk.old).seat.profile.heaps }
        requires size { 2048 < size }
        requires can { CanCall (D.standing desk.old) (MayAllocatePages (D.standing desk.old).seat.profile (cached self.old) ((size + 4096 - 1) / 4096) (D.spare_of desk.old)) }
        ensures allocates { (found : Option ℕ) × O.answers door.old door.new heap ((size + 4096 - 1) / 4096) found
            × ((align : ℕ) → IsAlignment align → route_in (D.standing desk.old).seat.profile size align ≡ TheRoute.Large → AllocatesPages (wanted_for (D.standing desk.old).seat.profile heap size align) found D.tells (cached self.old) (cached self.new) (D.standing desk.old) (D.standing desk.new) result) }
        ensures actor { seat_of self.new ≡ seat_of self.old }
        ensures home { D.home desk.new ≡ D.home desk.old }
    {
        pas_large::alloc(desk, door, heap, size.div_ceil(PAGE_BYTES))
    }

    /// Hands the noted runs of large blocks that ended to the door, in order. None is noted afterwards.
    #[inline(always)]
    pub fn settle<O: Door>(&mut self, door: &mut O)
        ensures settles { SettlesEach O.settles (cached self.old).noted door.old door.new }
        ensures cache { cached self.new ≡ record (cached self.old) { noted = [] } }
        ensures actor { seat_of self.new ≡ seat_of self.old }
    {
        for run in self.noted.as_slice() {
            door.settle(run.heap, run.range);
        }
        self.noted.clear();
    }
}
