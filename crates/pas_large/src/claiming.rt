//! A page of a run is claimed.
ghost use Rattle.std.specs.Prelude.{◌≡◌, ◌≤◌};
ghost use Rattle.pas_profile.specs.Profiles.{IsPage, IsDirectoryOf};
ghost use Rattle.pas_steps.specs.Desks.{CanCall};
ghost use Rattle.pas_large.specs.Pages.{MayClaim, ClaimsPage};

use crate::getting::get_right;
use crate::taking::take_whole;
use pas_profile::Directory;
use pas_steps::Desk;

/// What came of a page.
#[derive(Clone, Copy, Drop)]
pub enum Claimed {
    /// Another actor was first, or it has another deed or none.
    Lost,
    /// Not all its grains were free, and it was left.
    Broken,
    /// All its grains are held.
    Whole,
}

/// Claims a page with all its grains. A deed is made of it only where `deeds` is true.
pub(crate) fn claim_page<D: Desk>(
    desk: &mut D,
    page: u32,
    directory: Directory,
    deeds: bool,
) -> Claimed
    requires page { IsPage (D.standing desk.old).seat.profile page }
    requires directory { IsDirectoryOf (D.standing desk.old).seat.profile directory }
    requires can { CanCall (D.standing desk.old) (MayClaim directory page) }
    requires room { 1 ≤ D.spare_of desk.old }
    ensures claims { ClaimsPage deeds directory page (D.standing desk.old) (D.standing desk.new) result }
    ensures home { D.home desk.new ≡ D.home desk.old }
{
    if !get_right(desk, page, directory, deeds) {
        return Claimed::Lost;
    }
    if take_whole(desk, page, directory) {
        Claimed::Whole
    } else {
        Claimed::Broken
    }
}
