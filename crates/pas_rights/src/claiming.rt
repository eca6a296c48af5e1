//! An actor asks for the right of an offered page.
ghost use Rattle.pas_profile.specs.Profiles.{IsPage, IsDirectoryOf};
ghost use Rattle.pas_steps.specs.{Desks.CanCall, Views.KnowsDeed};
ghost use Rattle.pas_rights.specs.Claims.{Claims};
ghost use Rattle.std.specs.Prelude.{◌≡◌};

use pas_bits::page_vector::has_page;
use pas_profile::Directory;
use pas_steps::Desk;

/// Tries to get the right of a page whose deed is known as the directory: one step.
///
/// True exactly where the page's eligible bit was 1 at that step. The right is the actor's then.
pub fn claim<D: Desk>(desk: &mut D, page: u32, directory: Directory) -> bool
    requires page { IsPage (D.standing desk.old).seat.profile page }
    requires directory { IsDirectoryOf (D.standing desk.old).seat.profile directory }
    requires can { CanCall (D.standing desk.old) (KnowsDeed page directory) }
    ensures claims { Claims page directory (D.standing desk.old) (D.standing desk.new) result }
    ensures home { D.home desk.new ≡ D.home desk.old }
{
    let old = desk.take_right(page, directory);
    has_page(old, page)
}
