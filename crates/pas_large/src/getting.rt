//! The right of a page of a run.
ghost use Rattle.std.specs.Prelude.{◌≡◌, ◌≤◌};
ghost use Rattle.pas_profile.specs.Profiles.{IsPage, IsDirectoryOf};
ghost use Rattle.pas_steps.specs.Desks.{AnyView, CanCall};
ghost use Rattle.pas_large.specs.Pages.{GetsPage};

use pas_profile::{Directory, Word, deed_word};
use pas_rights::claim;
use pas_steps::Desk;

/// Tries to get the right of a page: by a claim where its deed word is read as the directory's, otherwise by the deed itself, where deeds may be made.
///
/// False where another actor was first, or where no deeds may be made and the page has another deed or none. At most two steps.
pub(crate) fn get_right<D: Desk>(desk: &mut D, page: u32, directory: Directory, deeds: bool) -> bool
    requires page { IsPage (D.standing desk.old).seat.profile page }
    requires directory { IsDirectoryOf (D.standing desk.old).seat.profile directory }
    requires can { CanCall (D.standing desk.old) AnyView }
    requires room { 1 ≤ D.spare_of desk.old }
    ensures gets { GetsPage deeds directory page (D.standing desk.old) (D.standing desk.new) result }
    ensures home { D.home desk.new ≡ D.home desk.old }
{
    let deed = desk.look(Word::Deed(page));
    if deed == deed_word(directory) {
        return claim(desk, page, directory);
    }
    if !deeds {
        return false;
    }
    desk.deed(page, directory) == 0
}
