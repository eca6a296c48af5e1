//! What becomes of a page whose grains were taken.
ghost use Rattle.std.specs.Prelude.{◌≡◌, ◌≤◌};
ghost use Rattle.pas_profile.specs.Profiles.{IsPage};
ghost use Rattle.pas_steps.specs.Desks.{CanCall};
ghost use Rattle.pas_scavenger.specs.Judgements.{MayJudge, JudgesPage};

use pas_profile::{Outcome, Word};
use pas_rights::Used;
use pas_steps::Desk;

/// Judges the page after its grains were taken up to the word that wasn't whole, and unbacks it where all 256 are held and its stamp is old
/// enough for the epoch. At most three steps, and one event.
pub(crate) fn judge<D: Desk>(desk: &mut D, page: u32, epoch: u64, used: Option<Used>) -> Outcome
    requires page { IsPage (D.standing desk.old).seat.profile page }
    requires can { CanCall (D.standing desk.old) (MayJudge page epoch used) }
    requires room { 1 ≤ D.spare_of desk.old }
    ensures judges { JudgesPage page epoch used (D.standing desk.old) (D.standing desk.new) result }
    ensures home { D.home desk.new ≡ D.home desk.old }
{
    if let Some(Used { word, value }) = used {
        return Outcome::InUse(word, value);
    }
    if desk.look(Word::Backed(page)) == 0 {
        return Outcome::Bare;
    }
    let stamp = desk.look(Word::Stamp(page));
    if epoch < stamp + desk.profile().age {
        return Outcome::Young(stamp);
    }
    desk.unback(page);
    Outcome::Unbacked
}
