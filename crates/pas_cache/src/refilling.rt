//! New slots come from the pages that serve a class in its heap.
ghost use Rattle.std.specs.Prelude.{◌≡◌};
ghost use Rattle.pas_steps.specs.Desks.{CanCall};
ghost use Rattle.pas_search.specs.Searches.{SearchRoom};
ghost use Rattle.pas_segregated.specs.Refills.{Refills};
ghost use Rattle.pas_cache.specs.Serves.{IsFilling, filling_in};

use pas_profile::{Directory, Kind, NoRoom};
use pas_segregated::Slots;
use pas_steps::Desk;

/// A refill of the class by the kind of its home: all free slots of an exclusive page, with the page's right, or up to four slots of a shared
/// page. At most one event where the deed of each page is known, and two otherwise.
pub(crate) fn refill<D: Desk>(desk: &mut D, home: Directory, class: u8) -> Result<Slots, NoRoom>
    requires filling { IsFilling (D.standing desk.old).seat.profile (filling_in home class) }
    requires can { CanCall (D.standing desk.old) (SearchRoom (D.standing desk.old).seat.profile home 1 (D.spare_of desk.old)) }
    ensures refills { Refills (filling_in home class) D.tells (D.standing desk.old) (D.standing desk.new) result }
    ensures home { D.home desk.new ≡ D.home desk.old }
{
    match home.kind {
        Kind::Shared => pas_partial::refill(desk, home.heap, class),
        _ => pas_segregated::refill(desk, home.heap, class),
    }
}
