//! A refill: the free slots of a page of a class.
ghost use Rattle.std.specs.Prelude.{◌≡◌};
ghost use Rattle.pas_profile.specs.Profiles.{IsDirectoryOf};
ghost use Rattle.pas_steps.specs.Desks.{CanCall};
ghost use Rattle.pas_search.specs.Searches.{SearchRoom};
ghost use Rattle.pas_segregated.specs.{Stops.class_directory, Refills.{exclusive_slots, Refills}};

use crate::serving::Exclusive;
use crate::slots::Slots;
use pas_profile::{Directory, Kind, NoRoom};
use pas_search::find_page;
use pas_steps::Desk;

/// All free slots of the lowest offered page of the class that has any, or of the lowest page without a deed, with the page's right.
///
/// `NoSpace` and `Held` come as the search of the pages of the class gives them. At most one event where the deed of each page is known, and
/// two otherwise. A page's turn takes at most 27 steps, a refill from `n` pages at most `(30 + w) n + 93`, and 66 more for each 64 of them; `w`
/// is the lesser of 8 and `n / 64 + 1`.
pub fn refill<D: Desk>(desk: &mut D, heap: u8, class: u8) -> Result<Slots, NoRoom>
    requires directory { IsDirectoryOf (D.standing desk.old).seat.profile (class_directory heap class) }
    requires can { CanCall (D.standing desk.old) (SearchRoom (D.standing desk.old).seat.profile (class_directory heap class) 1 (D.spare_of desk.old)) }
    ensures refills { Refills (exclusive_slots heap class) D.tells (D.standing desk.old) (D.standing desk.new) result }
    ensures home { D.home desk.new ≡ D.home desk.old }
{
    let directory = Directory {
        heap,
        kind: Kind::Class(class),
    };
    match find_page(&Exclusive { class }, desk, directory) {
        Ok(served) => Ok(Slots {
            page: served.page,
            heap,
            class,
            starts: served.found,
            right: true,
        }),
        Err(room) => Err(room),
    }
}
