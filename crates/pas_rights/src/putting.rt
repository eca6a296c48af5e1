//! Grains of one page are put back.
ghost use Rattle.std.specs.Prelude.{◌≡◌, ◌<◌, ◌≤◌, ◌+◌};
ghost use Rattle.pas_profile.specs.Profiles.{IsPage, IsDirectoryOf};
ghost use Rattle.pas_steps.specs.Desks.{CanCall};
ghost use Rattle.pas_bits.specs.declared.mask.Mask4.{Mask4 as Mask};
ghost use Rattle.pas_rights.specs.{Puts.{masked, MayPut, PutsMask, IsRunMask, PutsRun, MayPutWord, PutsWord}, PutsBack.{MayPutAndReturn, PutsAndReturns}};
ghost use Rattle.pas_rights.specs.PutsBack.{MayPutAndLeave, PutsAndLeaves};

use crate::leaving::leave;
use crate::returning::returned;
use pas_bits::Mask4;
use pas_profile::Directory;
use pas_steps::Desk;

/// Puts the mask's grains of the page back: one put for each free word that has any, so at most four.
pub fn put<D: Desk>(desk: &mut D, page: u32, mask: &Mask4)
    requires page { IsPage (D.standing desk.old).seat.profile page }
    requires can { CanCall (D.standing desk.old) (MayPut page mask.now) }
    ensures puts { PutsMask page mask.now (D.standing desk.old) (D.standing desk.new) }
    ensures home { D.home desk.new ≡ D.home desk.old }
{
    for word in 0..4u8 {
        put_word(desk, page, word, mask.0[word as usize]);
    }
}

/// Puts the mask's grains of one free word back, where there are any.
fn put_word<D: Desk>(desk: &mut D, page: u32, word: u8, mask: u64)
    requires page { IsPage (D.standing desk.old).seat.profile page }
    requires word { word < 4 }
    requires can { CanCall (D.standing desk.old) (MayPutWord page word mask) }
    ensures puts { PutsWord page word mask (D.standing desk.old) (D.standing desk.new) }
    ensures home { D.home desk.new ≡ D.home desk.old }
{
    if mask != 0 {
        desk.put(page, word, mask);
    }
}

/// Puts the run of so many grains of the page from the first one on back: one put where a free word has them all, and at most four.
pub fn put_run<D: Desk>(desk: &mut D, page: u32, first: u8, grains: u16)
    requires page { IsPage (D.standing desk.old).seat.profile page }
    requires within { first + grains ≤ 256 }
    requires can { (mask : Mask) → IsRunMask first grains mask → CanCall (D.standing desk.old) (MayPut page mask) }
    ensures puts { PutsRun page first grains (D.standing desk.old) (D.standing desk.new) }
    ensures home { D.home desk.new ≡ D.home desk.old }
{
    let mask = Mask4::run(first, grains);
    if first as u16 % 64 + grains > 64 {
        return put(desk, page, &mask);
    }
    let word = first / 64;
    put_word(desk, page, word, mask.0[word as usize]);
}

/// Puts the mask's grains of a page back, whose deed is known as the directory, and then does what `returned` does.
///
/// Where the mask is empty no step is made. At most four puts and eight steps more.
pub fn put_and_return<D: Desk>(desk: &mut D, page: u32, directory: Directory, mask: &Mask4)
    requires page { IsPage (D.standing desk.old).seat.profile page }
    requires directory { IsDirectoryOf (D.standing desk.old).seat.profile directory }
    requires can { CanCall (D.standing desk.old) (MayPutAndReturn page directory mask.now) }
    ensures puts { PutsAndReturns page directory mask.now (D.standing desk.old) (D.standing desk.new) }
    ensures home { D.home desk.new ≡ D.home desk.old }
{
    if mask.is_empty() {
        return;
    }
    put(desk, page, mask);
    returned(desk, page, directory);
}

/// Puts the mask's grains of the page back and leaves the page. At most 15 steps, and no event.
pub fn put_and_leave<D: Desk>(desk: &mut D, page: u32, directory: Directory, mask: &Mask4)
    requires page { IsPage (D.standing desk.old).seat.profile page }
    requires directory { IsDirectoryOf (D.standing desk.old).seat.profile directory }
    requires can { CanCall (D.standing desk.old) (MayPutAndLeave page directory (masked page mask.now)) }
    ensures puts { PutsAndLeaves page directory mask.now (D.standing desk.old) (D.standing desk.new) }
    ensures home { D.home desk.new ≡ D.home desk.old }
{
    put(desk, page, mask);
    leave(desk, page, directory);
}
