//! A refill: a few free slots of a shared page.
ghost use Rattle.std.specs.Prelude.{◌≡◌};
ghost use Rattle.pas_profile.specs.{Classes.IsClass, Profiles.IsDirectoryOf};
ghost use Rattle.pas_steps.specs.Desks.{CanCall};
ghost use Rattle.pas_search.specs.Searches.{SearchRoom};
ghost use Rattle.pas_segregated.specs.Refills.{Refills};
ghost use Rattle.pas_partial.specs.Refills.{shared_directory, shared_slots};

use crate::partial::Partial;
use pas_bits::Mask4;
use pas_profile::{Directory, Kind, NoRoom};
use pas_rights::leave;
use pas_search::{ByPlacement, find_page};
use pas_segregated::{Slots, whole_slots};
use pas_steps::Desk;

/// The lowest free slot of the class on the lowest offered shared page of the heap that has one, or on the lowest page without a deed, and the
/// three slots after it as far as they are free without a break. The page's right is left at once.
///
/// `NoSpace` and `Held` come as the search of the heap's shared pages gives them. At most one event where the deed of each page is known, and
/// two otherwise. A page's turn takes at most 15 steps, the search of `n` pages at most `(18 + w) n + 81` and 66 more for each 64 of them, where
/// `w` is the lesser of 8 and `n / 64 + 1`, and the leave 11 more.
pub fn refill<D: Desk>(desk: &mut D, heap: u8, class: u8) -> Result<Slots, NoRoom>
    requires class { IsClass class }
    requires directory { IsDirectoryOf (D.standing desk.old).seat.profile (shared_directory heap) }
    requires can { CanCall (D.standing desk.old) (SearchRoom (D.standing desk.old).seat.profile (shared_directory heap) 1 (D.spare_of desk.old)) }
    ensures refills { Refills (shared_slots heap class) D.tells (D.standing desk.old) (D.standing desk.new) result }
    ensures home { D.home desk.new ≡ D.home desk.old }
{
    let directory = Directory {
        heap,
        kind: Kind::Shared,
    };
    match find_page(&ByPlacement(Partial { class }), desk, directory) {
        Ok(served) => {
            let row = Mask4::run(served.found.first, served.found.grains);
            let starts = whole_slots(&row, class);
            leave(desk, served.page, directory);
            Ok(Slots {
                page: served.page,
                heap,
                class,
                starts,
                right: false,
            })
        }
        Err(room) => Err(room),
    }
}
