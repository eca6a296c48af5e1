//! An actor makes a page its own, and may leave it again.
ghost use Rattle.std.specs.Prelude.{◌≡◌, ◌≤◌};
ghost use Rattle.pas_profile.specs.Profiles.{IsPage, IsDirectoryOf};
ghost use Rattle.pas_steps.specs.Desks.{AnyView, CanCall};
ghost use Rattle.pas_rights.specs.Leaves.{MayLeave};
ghost use Rattle.pas_trials.specs.Trials.{LeftIf, MayLeaveIf, Brings};

use pas_profile::Directory;
use pas_rights::leave;
use pas_steps::Desk;

/// Takes all grains of the page's first free words, so many of the four. The right is the actor's, and stays its own.
fn take_words<D: Desk>(desk: &mut D, page: u32, directory: Directory, words: u8)
    requires page { IsPage (D.standing desk.old).seat.profile page }
    requires words { words ≤ 4 }
    requires can { CanCall (D.standing desk.old) (MayLeave page directory) }
    ensures brings { Brings (D.standing desk.old) (D.standing desk.new) (MayLeave page directory) (MayLeave page directory) }
    ensures home { D.home desk.new ≡ D.home desk.old }
{
    for word in 0..words {
        desk.take(page, word, u64::MAX);
    }
}

/// Makes the deed of the page, and takes all grains of its first free words, so many of the four.
///
/// True exactly where the page had no deed: the right is the actor's then. At most `words + 1` steps, and one event.
pub fn occupy<D: Desk>(desk: &mut D, page: u32, directory: Directory, words: u8) -> bool
    requires page { IsPage (D.standing desk.old).seat.profile page }
    requires directory { IsDirectoryOf (D.standing desk.old).seat.profile directory }
    requires words { words ≤ 4 }
    requires can { CanCall (D.standing desk.old) AnyView }
    requires room { 1 ≤ D.spare_of desk.old }
    ensures brings { Brings (D.standing desk.old) (D.standing desk.new) AnyView (MayLeaveIf result page directory) }
    ensures home { D.home desk.new ≡ D.home desk.old }
{
    if desk.deed(page, directory) != 0 {
        return false;
    }
    take_words(desk, page, directory, words);
    true
}

/// Occupies the page, and leaves it again where that is asked and the deed was made. The number of steps of the leave, 0 where there was
/// none. At most `words + 12` steps, and one event.
pub fn visit<D: Desk>(desk: &mut D, page: u32, directory: Directory, words: u8, leaves: bool) -> u64
    requires page { IsPage (D.standing desk.old).seat.profile page }
    requires directory { IsDirectoryOf (D.standing desk.old).seat.profile directory }
    requires words { words ≤ 4 }
    requires can { CanCall (D.standing desk.old) AnyView }
    requires room { 1 ≤ D.spare_of desk.old }
    ensures brings { Brings (D.standing desk.old) (D.standing desk.new) AnyView (LeftIf result page) }
    ensures home { D.home desk.new ≡ D.home desk.old }
{
    if !occupy(desk, page, directory, words) {
        return 0;
    }
    if !leaves {
        return 0;
    }
    let before = desk.count();
    leave(desk, page, directory);
    desk.count() - before
}
