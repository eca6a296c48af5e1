//! Grains of one page are taken.
ghost use Rattle.std.specs.Prelude.{◌≡◌, ◌<◌};
ghost use Rattle.pas_profile.specs.Profiles.{IsPage};
ghost use Rattle.pas_steps.specs.Desks.{CanCall};
ghost use Rattle.pas_rights.specs.Takes.{HasRight, TakesMask, TakesWord};

use pas_bits::Mask4;
use pas_steps::Desk;

/// Takes the mask's grains of the page that are free, and answers which it got: one take for each free word that has any of the mask, the
/// lowest first, so at most four. The page's right is the actor's.
pub fn take<D: Desk>(desk: &mut D, page: u32, mask: &Mask4) -> Mask4
    requires page { IsPage (D.standing desk.old).seat.profile page }
    requires can { CanCall (D.standing desk.old) (HasRight page) }
    ensures takes { TakesMask page mask.now (D.standing desk.old) (D.standing desk.new) result }
    ensures home { D.home desk.new ≡ D.home desk.old }
{
    let read = Mask4([
        take_word(desk, page, 0, mask.0[0]),
        take_word(desk, page, 1, mask.0[1]),
        take_word(desk, page, 2, mask.0[2]),
        take_word(desk, page, 3, mask.0[3]),
    ]);
    read.both(mask)
}

/// Takes the mask's grains of one free word, where there are any, and answers what the word was.
fn take_word<D: Desk>(desk: &mut D, page: u32, word: u8, mask: u64) -> u64
    requires page { IsPage (D.standing desk.old).seat.profile page }
    requires word { word < 4 }
    requires can { CanCall (D.standing desk.old) (HasRight page) }
    ensures takes { TakesWord page word mask (D.standing desk.old) (D.standing desk.new) result }
    ensures home { D.home desk.new ≡ D.home desk.old }
{
    if mask == 0 {
        return 0;
    }
    desk.take(page, word, mask)
}
