//! One page whose empty bit was cleared.
ghost use Rattle.std.specs.Prelude.{◌≡◌, ◌≤◌};
ghost use Rattle.pas_profile.specs.Profiles.{IsPage, IsDirectoryOf};
ghost use Rattle.pas_steps.specs.{Desks.CanCall, Views.ReadBacked};
ghost use Rattle.pas_scavenger.specs.Pages.{MayExamine, MayTake, ReadsDirectory, TakesPage, ExaminesPage};

use crate::judging::judge;
use crate::putting::put_back;
use crate::taking::{grains_of, take_grains};
use pas_profile::{Directory, Outcome, Word, read_deed};
use pas_rights::{claim, first_used};
use pas_steps::Desk;

/// The directory of a page that was once read as backed, so that it has a deed.
fn read_directory<D: Desk>(desk: &mut D, page: u32) -> Directory
    requires page { IsPage (D.standing desk.old).seat.profile page }
    requires can { CanCall (D.standing desk.old) (λ v. ReadBacked v page) }
    ensures reads { ReadsDirectory page (D.standing desk.old) (D.standing desk.new) result }
    ensures home { D.home desk.new ≡ D.home desk.old }
{
    let Some(directory) = read_deed(desk.look(Word::Deed(page))) else {
        unreachable!();
    };
    directory
}

/// What came of the page, whose empty bit the actor cleared. At most 37 steps, and one event.
///
/// Its outcome is the first that applies. Whatever it is, all that was got is put back, and the page is left where its right was got.
pub(crate) fn examine<D: Desk>(desk: &mut D, page: u32, epoch: u64) -> Outcome
    requires page { IsPage (D.standing desk.old).seat.profile page }
    requires can { CanCall (D.standing desk.old) (MayExamine page epoch) }
    requires room { 1 ≤ D.spare_of desk.old }
    ensures examines { ExaminesPage page epoch (D.standing desk.old) (D.standing desk.new) result }
    ensures home { D.home desk.new ≡ D.home desk.old }
{
    if desk.look(Word::Backed(page)) == 0 {
        return Outcome::Bare;
    }
    if let Some(used) = first_used(desk, page) {
        return Outcome::InUse(used.word, used.value);
    }
    let directory = read_directory(desk, page);
    if !claim(desk, page, directory) {
        desk.hint(page);
        return Outcome::NotOffered;
    }
    take_page(desk, page, directory, epoch)
}

/// What came of the page, whose right the actor got.
fn take_page<D: Desk>(desk: &mut D, page: u32, directory: Directory, epoch: u64) -> Outcome
    requires page { IsPage (D.standing desk.old).seat.profile page }
    requires directory { IsDirectoryOf (D.standing desk.old).seat.profile directory }
    requires can { CanCall (D.standing desk.old) (MayTake page directory epoch) }
    requires room { 1 ≤ D.spare_of desk.old }
    ensures takes { TakesPage page directory epoch (D.standing desk.old) (D.standing desk.new) result }
    ensures home { D.home desk.new ≡ D.home desk.old }
{
    let used = take_grains(desk, page);
    let grains = grains_of(used);
    let outcome = judge(desk, page, epoch, used);
    put_back(desk, page, directory, &grains);
    outcome
}
