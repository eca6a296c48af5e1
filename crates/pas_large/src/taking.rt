//! All grains of a page of a run.
ghost use Rattle.std.specs.Prelude.{◌≡◌};
ghost use Rattle.pas_profile.specs.Profiles.{IsPage, IsDirectoryOf};
ghost use Rattle.pas_steps.specs.Desks.{CanCall};
ghost use Rattle.pas_search.specs.Serving.{MayServe};
ghost use Rattle.pas_large.specs.Pages.{TakesPage};

use pas_bits::Mask4;
use pas_profile::Directory;
use pas_rights::{put_and_leave, take};
use pas_steps::Desk;

/// Takes all grains of the page, by four takes. False where some weren't free: those that were got are put back then, and the page is left.
pub(crate) fn take_whole<D: Desk>(desk: &mut D, page: u32, directory: Directory) -> bool
    requires page { IsPage (D.standing desk.old).seat.profile page }
    requires directory { IsDirectoryOf (D.standing desk.old).seat.profile directory }
    requires can { CanCall (D.standing desk.old) (MayServe page directory) }
    ensures takes { TakesPage directory page (D.standing desk.old) (D.standing desk.new) result }
    ensures home { D.home desk.new ≡ D.home desk.old }
{
    let got = take(desk, page, &Mask4([u64::MAX; 4]));
    match got.first_zero() {
        None => true,
        Some(_) => {
            put_and_leave(desk, page, directory, &got);
            false
        }
    }
}
