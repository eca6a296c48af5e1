//! An actor wants a page of a directory.
ghost use Rattle.std.specs.Prelude.{◌≡◌};
ghost use Rattle.pas_profile.specs.Profiles.{IsPage, IsDirectoryOf};
ghost use Rattle.pas_steps.specs.Desks.{AnyView, CanCall};
ghost use Rattle.pas_trials.specs.Trials.{Answered, Brings, Wants};

use pas_profile::{Directory, NoRoom, Word, deed_word};
use pas_rights::claim;
use pas_scan::{Looked, first_offered, first_without_deed, verdict};
use pas_steps::Desk;

/// What an actor found that wanted a page of a directory.
#[derive(Clone, Copy, PartialEq, Eq, Drop)]
pub struct Findings {
    /// Whether it got the right of the page that it asked for. None where that page isn't of the directory.
    pub claimed: Option<bool>,
    /// The lowest page that was offered then.
    pub offered: Option<u32>,
    /// The lowest page without a deed, from the page on.
    pub bare: Option<u32>,
    /// Why there is no room on the pages of the directory.
    pub verdict: NoRoom,
}

/// Looks at the deed word of the page, and asks for its right where it is of the directory: two steps at most.
///
/// None exactly where the page isn't of the directory, true exactly where the right is the actor's from now on.
pub fn ask<D: Desk>(desk: &mut D, page: u32, directory: Directory) -> Option<bool>
    requires page { IsPage (D.standing desk.old).seat.profile page }
    requires directory { IsDirectoryOf (D.standing desk.old).seat.profile directory }
    requires can { CanCall (D.standing desk.old) AnyView }
    ensures brings { Brings (D.standing desk.old) (D.standing desk.new) AnyView (Answered result page directory) }
    ensures home { D.home desk.new ≡ D.home desk.old }
{
    if desk.look(Word::Deed(page)) != deed_word(directory) {
        return None;
    }
    Some(claim(desk, page, directory))
}

/// Asks for the page, and searches the directory and the pages without a deed after that.
pub fn want<D: Desk>(desk: &mut D, page: u32, directory: Directory) -> Findings
    requires page { IsPage (D.standing desk.old).seat.profile page }
    requires directory { IsDirectoryOf (D.standing desk.old).seat.profile directory }
    requires can { CanCall (D.standing desk.old) AnyView }
    ensures wants { Wants page directory (D.standing desk.old) (D.standing desk.new) result }
    ensures home { D.home desk.new ≡ D.home desk.old }
{
    let claimed = ask(desk, page, directory);
    let mut looked = Looked::begin(directory);
    let offered = first_offered(desk, &mut looked);
    let bare = first_without_deed(desk, page);
    let verdict = verdict(desk, &looked);
    Findings {
        claimed,
        offered,
        bare,
        verdict,
    }
}
