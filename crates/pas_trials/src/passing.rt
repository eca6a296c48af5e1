//! An actor ages a page that may be empty, and makes a pass.
ghost use Rattle.std.specs.Prelude.{◌≡◌, ◌^◌, ◌<◌, ◌≤◌};
ghost use Rattle.pas_profile.specs.Profiles.{IsPage};
ghost use Rattle.pas_steps.specs.{Clear.HasNothing, Desks.CanCall};
ghost use Rattle.pas_utility.specs.Outcomes.{places_of};
ghost use Rattle.pas_trials.specs.Filling.{Steps};

use pas_scavenger::pass;
use pas_steps::Desk;
use pas_utility::Outcomes;

/// Hints the page, raises the epoch, and makes a pass. The epoch that the pass read.
pub fn age_and_pass<D: Desk>(desk: &mut D, page: u32, epoch: u64, out: &mut Outcomes) -> u64
    requires page { IsPage (D.standing desk.old).seat.profile page }
    requires epoch { epoch < 2 ^ 40 }
    requires can { CanCall (D.standing desk.old) HasNothing }
    requires room { (D.standing desk.old).seat.profile.pages ≤ D.spare_of desk.old }
    requires places { places_of out.old ≡ (D.standing desk.old).seat.profile.pages }
    ensures steps { Steps (D.standing desk.old) (D.standing desk.new) HasNothing }
{
    desk.hint(page);
    desk.tick(epoch);
    pass(desk, out)
}
