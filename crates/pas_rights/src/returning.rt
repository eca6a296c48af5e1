//! What an actor owes after it put grains back.
ghost use Rattle.std.specs.Prelude.{◌≡◌};
ghost use Rattle.pas_profile.specs.Profiles.{IsPage, IsDirectoryOf};
ghost use Rattle.pas_steps.specs.{Desks.CanCall, Views.KnowsDeed};
ghost use Rattle.pas_rights.specs.Returns.{Returned, ReoffersPage};

use crate::looking::hint_backed;
use crate::reading::first_used;
use pas_bits::page_vector::has_page;
use pas_profile::Directory;
use pas_steps::Desk;

/// Takes the right of the page back, if it is parked, and offers the page.
pub(crate) fn reoffer<D: Desk>(desk: &mut D, page: u32, directory: Directory)
    requires page { IsPage (D.standing desk.old).seat.profile page }
    requires directory { IsDirectoryOf (D.standing desk.old).seat.profile directory }
    requires can { CanCall (D.standing desk.old) (KnowsDeed page directory) }
    ensures reoffers { ReoffersPage page directory (D.standing desk.old) (D.standing desk.new) }
    ensures home { D.home desk.new ≡ D.home desk.old }
{
    let old = desk.unpark(page);
    if has_page(old, page) {
        desk.offer(page, directory);
    }
}

/// Ends what the actor owes on a page after it put grains back there, whose deed is known as the directory.
///
/// A parked page is taken back and offered. The free words are looked at in order until one isn't all ones, and where all four are, the
/// page is hinted if it is backed. At most eight steps. Afterwards the actor owes nothing on the page, and it has the right exactly where it
/// had it before.
pub fn returned<D: Desk>(desk: &mut D, page: u32, directory: Directory)
    requires page { IsPage (D.standing desk.old).seat.profile page }
    requires directory { IsDirectoryOf (D.standing desk.old).seat.profile directory }
    requires can { CanCall (D.standing desk.old) (KnowsDeed page directory) }
    ensures returns { Returned page directory (D.standing desk.old) (D.standing desk.new) }
    ensures home { D.home desk.new ≡ D.home desk.old }
{
    reoffer(desk, page, directory);
    match first_used(desk, page) {
        None => hint_backed(desk, page),
        Some(_) => {}
    }
}
