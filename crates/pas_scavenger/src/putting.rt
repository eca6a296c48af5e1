//! Grains of a page are put back, and the page is left.
ghost use Rattle.std.specs.Prelude.{◌≡◌};
ghost use Rattle.pas_profile.specs.Profiles.{IsPage, IsDirectoryOf};
ghost use Rattle.pas_steps.specs.Desks.{CanCall};
ghost use Rattle.pas_scavenger.specs.Puttings.{MayPutBack, PutsBack};

use pas_bits::Mask4;
use pas_profile::Directory;
use pas_rights::{leave, put, returned};
use pas_steps::Desk;

/// Puts all grains that are held back, ends what is owed on their page, and leaves it. At most 23 steps.
pub(crate) fn put_back<D: Desk>(desk: &mut D, page: u32, directory: Directory, grains: &Mask4)
    requires page { IsPage (D.standing desk.old).seat.profile page }
    requires directory { IsDirectoryOf (D.standing desk.old).seat.profile directory }
    requires can { CanCall (D.standing desk.old) (MayPutBack page directory grains.now) }
    ensures puts { PutsBack page directory grains.now (D.standing desk.old) (D.standing desk.new) }
    ensures home { D.home desk.new ≡ D.home desk.old }
{
    put(desk, page, grains);
    returned(desk, page, directory);
    leave(desk, page, directory);
}
