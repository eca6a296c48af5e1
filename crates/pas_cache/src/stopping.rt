//! A cache is stopped.
ghost use Rattle.std.specs.Prelude.{◌≡◌, ◌<◌, ◌+◌, [], length};
ghost use Rattle.pas_steps.specs.Desks.{CanCall};
ghost use Rattle.pas_cache.specs.{Locals.RestsWith, Changes.StopsEach, Parts.{Releases, StopsPlace}};

use crate::cache::ThreadCache;
use crate::giving_up::give_up;
use arrayvec::ArrayVec;
use pas_free_log::flush;
use pas_profile::limits::MOST_LOCALS;
use pas_segregated::Slots;
use pas_steps::Desk;

/// Takes the local allocator at this place out of the list and stops it. At most 23 steps, and no event.
pub(crate) fn stop_at<D: Desk>(
    desk: &mut D,
    locals: &mut ArrayVec<Slots, MOST_LOCALS>,
    place: usize,
)
    requires place { place < length locals.old.items }
    requires can { CanCall (D.standing desk.old) (RestsWith (D.standing desk.old).seat.profile locals.old.items) }
    ensures stops { StopsPlace place locals.old.items locals.new.items (D.standing desk.old) (D.standing desk.new) }
    ensures fewer { length locals.new.items + 1 ≡ length locals.old.items }
    ensures spare { D.spare_of desk.new ≡ D.spare_of desk.old }
    ensures home { D.home desk.new ≡ D.home desk.old }
{
    let slots = locals.remove(place);
    give_up(desk, slots);
}

/// Stops all local allocators, from the last used one on. At most 23 steps for each, and no event.
fn stop_all<D: Desk>(desk: &mut D, locals: &mut ArrayVec<Slots, MOST_LOCALS>)
    requires can { CanCall (D.standing desk.old) (RestsWith (D.standing desk.old).seat.profile locals.old.items) }
    ensures stops { Releases (StopsEach locals.old.items) locals.old.items [] (D.standing desk.old) (D.standing desk.new) }
    ensures empty { locals.new.items ≡ [] }
    ensures spare { D.spare_of desk.new ≡ D.spare_of desk.old }
    ensures home { D.home desk.new ≡ D.home desk.old }
{
    while let Some(last) = locals.len().checked_sub(1) {
        stop_at(desk, locals, last);
    }
}

impl ThreadCache {
    ghost use Rattle.std.specs.Prelude.{◌≡◌, ◌≤◌, ◌+◌, length};
    ghost use Rattle.pas_steps.specs.Desks.{CanCall};
    ghost use Rattle.pas_cache.specs.{Caches.{cached, seat_of, AtRest}, Calls.StopsCache};

    /// Flushes the log, and stops each local allocator: the grains of its unused slots are put back, and the right of its page is left. The cache
    /// is empty afterwards, so its actor holds and has nothing. At most 23 steps for each local allocator beside those of the flush. There is room for an event for each logged name.
    pub fn stop<D: Desk>(&mut self, desk: &mut D)
        requires room { length (cached self.old).log ≤ D.spare_of desk.old }
        requires can { CanCall (D.standing desk.old) (AtRest (D.standing desk.old).seat.profile (cached self.old)) }
        ensures stops { StopsCache (cached self.old) (cached self.new) (D.standing desk.old) (D.standing desk.new) }
        ensures spare { D.spare_of desk.new + length (cached self.old).log ≡ D.spare_of desk.old }
        ensures actor { seat_of self.new ≡ seat_of self.old }
        ensures home { D.home desk.new ≡ D.home desk.old }
    {
        flush(desk, &mut self.log, &mut self.noted);
        stop_all(desk, &mut self.locals);
    }
}
