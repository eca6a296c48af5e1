//! Slots are obtained for a request.
ghost use Rattle.std.specs.Prelude.{◌≡◌, ◌<◌, None, Err, MatchResult, length};
ghost use Rattle.pas_steps.specs.Desks.{CanCall};
ghost use Rattle.pas_cache.specs.{Locals.{local_for, RestsWith}, Changes.{IsTakenOut, IsShortened}, Parts.{Releases, MayObtain, Obtains, StandsLast}};
ghost use Rattle.pas_cache.specs.Serves.{IsFilling, filling_in, MakesPlace, HasNoneCached};

use crate::refilling::refill;
use crate::stopping::stop_at;
use crate::taking::{bring_cached, place_of};
use arrayvec::ArrayVec;
use pas_profile::limits::MOST_LOCALS;
use pas_profile::{Directory, NoRoom};
use pas_segregated::Slots;
use pas_steps::Desk;

/// Stops the local allocator that was used longest ago where 32 are there. At most 23 steps, and no event.
fn shorten<D: Desk>(desk: &mut D, locals: &mut ArrayVec<Slots, MOST_LOCALS>)
    requires can { CanCall (D.standing desk.old) (RestsWith (D.standing desk.old).seat.profile locals.old.items) }
    ensures shortens { Releases (IsShortened locals.old.items locals.new.items) locals.old.items locals.new.items (D.standing desk.old) (D.standing desk.new) }
    ensures few { length locals.new.items < 32 }
    ensures spare { D.spare_of desk.new ≡ D.spare_of desk.old }
    ensures home { D.home desk.new ≡ D.home desk.old }
{
    if locals.is_full() {
        stop_at(desk, locals, 0);
    }
}

/// Takes the local allocator of the heap and the class, which has no slot, out of the list, and leaves its page. At most 23 steps, and no event.
fn leave_spent<D: Desk>(
    desk: &mut D,
    locals: &mut ArrayVec<Slots, MOST_LOCALS>,
    heap: u8,
    class: u8,
)
    requires none { HasNoneCached heap class locals.old.items }
    requires can { CanCall (D.standing desk.old) (RestsWith (D.standing desk.old).seat.profile locals.old.items) }
    ensures leaves { Releases (IsTakenOut heap class locals.old.items locals.new.items) locals.old.items locals.new.items (D.standing desk.old) (D.standing desk.new) }
    ensures spare { D.spare_of desk.new ≡ D.spare_of desk.old }
    ensures home { D.home desk.new ≡ D.home desk.old }
{
    if let Some(place) = place_of(locals, heap, class) {
        stop_at(desk, locals, place);
    }
}

/// Makes place for a local allocator of the heap and the class, of which none has a slot: one without a slot is left, and the one used longest
/// ago is stopped where 32 are there. At most 46 steps, and no event.
fn make_place<D: Desk>(desk: &mut D, locals: &mut ArrayVec<Slots, MOST_LOCALS>, heap: u8, class: u8)
    requires none { HasNoneCached heap class locals.old.items }
    requires can { CanCall (D.standing desk.old) (RestsWith (D.standing desk.old).seat.profile locals.old.items) }
    ensures makes { Releases (MakesPlace heap class locals.old.items locals.new.items) locals.old.items locals.new.items (D.standing desk.old) (D.standing desk.new) }
    ensures none { local_for heap class locals.new.items ≡ None }
    ensures few { length locals.new.items < 32 }
    ensures spare { D.spare_of desk.new ≡ D.spare_of desk.old }
    ensures home { D.home desk.new ≡ D.home desk.old }
{
    leave_spent(desk, locals, heap, class);
    shorten(desk, locals);
}

/// Gets new slots for the class from the pages of its home, of which none is cached. They come to the end of the list.
#[inline(never)]
fn fetch<D: Desk>(
    desk: &mut D,
    locals: &mut ArrayVec<Slots, MOST_LOCALS>,
    home: Directory,
    class: u8,
) -> Result<(), NoRoom>
    requires filling { IsFilling (D.standing desk.old).seat.profile (filling_in home class) }
    requires none { HasNoneCached home.heap class locals.old.items }
    requires can { CanCall (D.standing desk.old) (MayObtain (D.standing desk.old).seat.profile 1 (D.spare_of desk.old) locals.old.items) }
    ensures obtains { MatchResult result
        (λ done. StandsLast (filling_in home class) D.tells locals.old.items locals.new.items (D.standing desk.old) (D.standing desk.new))
        (λ room. Obtains (filling_in home class) D.tells locals.old.items locals.new.items (D.standing desk.old) (D.standing desk.new) (Err room)) }
    ensures home { D.home desk.new ≡ D.home desk.old }
{
    make_place(desk, locals, home.heap, class);
    match refill(desk, home, class) {
        Ok(slots) => {
            locals.push(slots);
            Ok(())
        }
        Err(room) => Err(room),
    }
}

/// Brings the local allocator of the heap and the class to the end of the list where it has a slot, and gets new slots otherwise.
#[inline(always)]
pub(crate) fn obtain<D: Desk>(
    desk: &mut D,
    locals: &mut ArrayVec<Slots, MOST_LOCALS>,
    home: Directory,
    class: u8,
) -> Result<(), NoRoom>
    requires filling { IsFilling (D.standing desk.old).seat.profile (filling_in home class) }
    requires can { CanCall (D.standing desk.old) (MayObtain (D.standing desk.old).seat.profile 1 (D.spare_of desk.old) locals.old.items) }
    ensures obtains { MatchResult result
        (λ done. StandsLast (filling_in home class) D.tells locals.old.items locals.new.items (D.standing desk.old) (D.standing desk.new))
        (λ room. Obtains (filling_in home class) D.tells locals.old.items locals.new.items (D.standing desk.old) (D.standing desk.new) (Err room)) }
    ensures home { D.home desk.new ≡ D.home desk.old }
{
    if bring_cached(locals, home.heap, class) {
        return Ok(());
    }
    fetch(desk, locals, home, class)
}
