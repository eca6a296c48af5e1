//! An actor gives the right of a page back.
ghost use Rattle.std.specs.Prelude.{◌≡◌, Bool};
ghost use Rattle.pas_profile.specs.Profiles.{IsPage, IsDirectoryOf};
ghost use Rattle.pas_steps.specs.Desks.{CanCall};
ghost use Rattle.pas_rights.specs.Leaves.{MayLeave, Leaves, OffersPage, ParksPage};

use crate::looking::{has_usable, hint_backed, is_all_free};
use crate::reading::read;
use crate::returning::reoffer;
use pas_profile::Directory;
use pas_steps::Desk;

/// Gives the right of the page back, whose deed is known as the directory.
///
/// The page is offered where a look at its four free words shows a usable grain, and parked where it shows none. A page in which each
/// grain was read as free is hinted where it is backed. After the parking the words are looked at once more, and the page is taken back and
/// offered where they show a usable grain by then. At most eleven steps. Afterwards the actor owes nothing on the page.
pub fn leave<D: Desk>(desk: &mut D, page: u32, directory: Directory)
    requires page { IsPage (D.standing desk.old).seat.profile page }
    requires directory { IsDirectoryOf (D.standing desk.old).seat.profile directory }
    requires can { CanCall (D.standing desk.old) (MayLeave page directory) }
    ensures leaves { Leaves page directory (D.standing desk.old) (D.standing desk.new) }
    ensures home { D.home desk.new ≡ D.home desk.old }
{
    let free = read(desk, page);
    if has_usable(&free, directory) {
        offer(desk, page, directory, is_all_free(&free))
    } else {
        park(desk, page, directory)
    }
}

/// Offers the page. Where each of its grains was read as free before, it is hinted if it is backed.
fn offer<D: Desk>(desk: &mut D, page: u32, directory: Directory, all_free: bool)
    requires page { IsPage (D.standing desk.old).seat.profile page }
    requires directory { IsDirectoryOf (D.standing desk.old).seat.profile directory }
    requires can { CanCall (D.standing desk.old) (MayLeave page directory) }
    ensures offers { OffersPage page directory all_free (D.standing desk.old) (D.standing desk.new) }
    ensures home { D.home desk.new ≡ D.home desk.old }
{
    desk.offer(page, directory);
    if all_free {
        hint_backed(desk, page);
    }
}

/// Parks the page and looks at its free words once more. Where they show a usable grain, the page is taken back, if it is still parked, and
/// offered.
fn park<D: Desk>(desk: &mut D, page: u32, directory: Directory)
    requires page { IsPage (D.standing desk.old).seat.profile page }
    requires directory { IsDirectoryOf (D.standing desk.old).seat.profile directory }
    requires can { CanCall (D.standing desk.old) (MayLeave page directory) }
    ensures parks { ParksPage page directory (D.standing desk.old) (D.standing desk.new) }
    ensures home { D.home desk.new ≡ D.home desk.old }
{
    desk.park(page);
    let later = read(desk, page);
    if has_usable(&later, directory) {
        reoffer(desk, page, directory);
    }
}
