//! The free words of a page are looked at.
ghost use Rattle.std.specs.Prelude.{◌≡◌};
ghost use Rattle.pas_profile.specs.Profiles.{IsPage};
ghost use Rattle.pas_steps.specs.Desks.{AnyView, CanCall};
ghost use Rattle.pas_rights.specs.Looks.{ReadsPage, ReadsUntilUsed};

use pas_bits::Mask4;
use pas_profile::Word;
use pas_steps::Desk;

/// A free word that was read as not all ones: its place on the page, 0 to 3, and its value.
#[derive(Clone, Copy, PartialEq, Eq, Drop)]
pub struct Used {
    pub word: u8,
    pub value: u64,
}

/// Which grains of the page are free: a look at each free word, the lowest first. Four steps.
pub fn read<D: Desk>(desk: &mut D, page: u32) -> Mask4
    requires page { IsPage (D.standing desk.old).seat.profile page }
    requires can { CanCall (D.standing desk.old) AnyView }
    ensures reads { ReadsPage page (D.standing desk.old) (D.standing desk.new) result }
    ensures home { D.home desk.new ≡ D.home desk.old }
{
    Mask4([
        desk.look(Word::Free(page, 0)),
        desk.look(Word::Free(page, 1)),
        desk.look(Word::Free(page, 2)),
        desk.look(Word::Free(page, 3)),
    ])
}

/// Looks at the free words of the page, the lowest first, until one isn't all ones. None exactly where all four are. At most four steps.
pub fn first_used<D: Desk>(desk: &mut D, page: u32) -> Option<Used>
    requires page { IsPage (D.standing desk.old).seat.profile page }
    requires can { CanCall (D.standing desk.old) AnyView }
    ensures reads { ReadsUntilUsed page (D.standing desk.old) (D.standing desk.new) result }
    ensures home { D.home desk.new ≡ D.home desk.old }
{
    for word in 0..4u8 {
        let value = desk.look(Word::Free(page, word));
        if value != u64::MAX {
            return Some(Used { word, value });
        }
    }
    None
}
