//! A request is served.
ghost use Rattle.std.specs.Prelude.{◌≡◌, ◌≤◌, max};
ghost use Rattle.pas_profile.specs.Routes.{room_by};
ghost use Rattle.pas_profile.specs.declared.directory.Route.TheVariants as TheRoute;
ghost use Rattle.pas_steps.specs.Desks.{CanCall};
ghost use Rattle.pas_cache.specs.{Serves.{IsFilling, filling_in}, Parts.{MayObtain, ServesFrom}};

use crate::cache::ThreadCache;
use crate::giving::give_lowest;
use crate::obtaining::obtain;
use arrayvec::ArrayVec;
use pas_large::{Door, NoIndex};
use pas_profile::limits::{GRAIN_BYTES, MOST_LOCALS};
use pas_profile::{Block, Directory, NoRoom, Route};
use pas_segregated::Slots;
use pas_steps::Desk;
use pas_utility::HeapTable;

/// Serves a request of the class, which is at home in the directory, from the local allocators.
#[inline(always)]
fn serve_class<D: Desk>(
    desk: &mut D,
    locals: &mut ArrayVec<Slots, MOST_LOCALS>,
    home: Directory,
    class: u8,
) -> Result<Block, NoRoom>
    requires filling { IsFilling (D.standing desk.old).seat.profile (filling_in home class) }
    requires can { CanCall (D.standing desk.old) (MayObtain (D.standing desk.old).seat.profile 2 (D.spare_of desk.old) locals.old.items) }
    ensures serves { ServesFrom (filling_in home class) D.tells locals.old.items locals.new.items (D.standing desk.old) (D.standing desk.new) result }
    ensures home { D.home desk.new ≡ D.home desk.old }
{
    match obtain(desk, locals, home, class) {
        Err(room) => Err(room),
        Ok(()) => {
            let last = locals.len() - 1;
            Ok(give_lowest(desk, &mut locals[last]))
        }
    }
}

/// The room of a bit-fit block for so many bytes, of which none count as one: whole grains.
fn bitfit_room(size: u32) -> u32
    requires { size ≤ 2048 }
    ensures { result ≡ room_by TheRoute.Bitfit (max size 1) }
{
    size.max(1).div_ceil(GRAIN_BYTES) * GRAIN_BYTES
}

impl ThreadCache {
    ghost use Rattle.std.specs.Prelude.{◌≡◌, ◌+◌, ◌-◌, ◌/◌};
    ghost use Rattle.pas_profile.specs.{Profiles.IsAdmitted, Requests.route_in};
    ghost use Rattle.pas_cache.specs.{Serves.{IsSmallRoute, wanted_for}, Caches.{cached, seat_of}, Calls.{MayAllocate, Allocates, MayRequest}};
    ghost use Rattle.pas_cache.specs.Calls.{AllocatesRequest};

    /// A block of the heap for so many bytes, at a multiple of the alignment. The request is one that the profile admits.
    ///
    /// Of a class: where the local allocator of the heap and the class has a slot, its lowest one is given in two steps. Otherwise one without a
    /// slot is left, the one used longest ago is stopped where 32 are there, and new slots are searched for, in shared pages where the heap is
    /// declared as shared: in the offered pages from the lowest up, then in the lowest page without a deed. A bit-fit request is served from the
    /// heap's bit-fit pages, and nothing is cached. One for whole pages goes as `alloc_large` says; no other asks the door, nor changes it.
    ///
    /// `NoSpace` and `Held` come where no page serves: `Held` with the lowest page of the directory that was in some actor's hands. There is room
    /// for two events, and for a third one where the deed of some page isn't known; for whole pages as `alloc_large` says.
    #[inline(always)]
    pub fn serve<D: Desk, O: Door>(
        &mut self,
        desk: &mut D,
        door: &mut O,
        heap: u8,
        size: u32,
        align: u32,
    ) -> Result<Block, NoRoom>
        requires admitted { IsAdmitted (D.standing desk.old).seat.profile size align heap }
        requires can { CanCall (D.standing desk.old) (MayRequest (D.standing desk.old).seat.profile (wanted_for (D.standing desk.old).seat.profile heap size align) (cached self.old) (D.spare_of desk.old)) }
        ensures allocates { AllocatesRequest (O.answers door.old door.new heap ((size + 4096 - 1) / 4096)) (door.new ≡ door.old) (wanted_for (D.standing desk.old).seat.profile heap size align) D.tells (cached self.old) (cached self.new) (D.standing desk.old) (D.standing desk.new) result }
        ensures actor { seat_of self.new ≡ seat_of self.old }
        ensures home { D.home desk.new ≡ D.home desk.old }
    {
        match desk.profile().route(size, align) {
            Route::Class(class) => {
                let kind = HeapTable::new(desk.profile()).kind_for(heap, class);
                serve_class(desk, &mut self.locals, Directory { heap, kind }, class)
            }
            Route::Bitfit => pas_bitfit::alloc(desk, heap, bitfit_room(size), align),
            Route::Large => self.alloc_large(desk, door, heap, size),
        }
    }

    /// The same where the route isn't whole pages.
    pub fn alloc<D: Desk>(
        &mut self,
        desk: &mut D,
        heap: u8,
        size: u32,
        align: u32,
    ) -> Result<Block, NoRoom>
        requires admitted { IsAdmitted (D.standing desk.old).seat.profile size align heap }
        requires route { IsSmallRoute (route_in (D.standing desk.old).seat.profile size align) }
        requires can { CanCall (D.standing desk.old) (MayAllocate (D.standing desk.old).seat.profile (cached self.old) (D.spare_of desk.old)) }
        ensures allocates { Allocates (wanted_for (D.standing desk.old).seat.profile heap size align) D.tells (cached self.old) (cached self.new) (D.standing desk.old) (D.standing desk.new) result }
        ensures actor { seat_of self.new ≡ seat_of self.old }
        ensures home { D.home desk.new ≡ D.home desk.old }
    {
        self.serve(desk, &mut NoIndex, heap, size, align)
    }
}
