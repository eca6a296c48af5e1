//! Whether the outer pages of a run are backed.
ghost use Rattle.std.specs.Prelude.{◌≡◌};
ghost use Rattle.pas_profile.specs.Profiles.{IsPage};
ghost use Rattle.pas_steps.specs.Desks.{AnyView, CanCall};
ghost use Rattle.pas_guard.specs.Seeks.{LooksBacked};

use pas_profile::Word;
use pas_steps::Desk;

/// Whether neither page is read as backed: a look at the backed word of the low page, and of the high one where the low one isn't.
pub(crate) fn are_bare<D: Desk>(desk: &mut D, low: u32, high: u32) -> bool
    requires low { IsPage (D.standing desk.old).seat.profile low }
    requires high { IsPage (D.standing desk.old).seat.profile high }
    requires can { CanCall (D.standing desk.old) AnyView }
    ensures looks { LooksBacked low high (D.standing desk.old) (D.standing desk.new) result }
    ensures home { D.home desk.new ≡ D.home desk.old }
{
    if desk.look(Word::Backed(low)) != 0 {
        return false;
    }
    desk.look(Word::Backed(high)) == 0
}
