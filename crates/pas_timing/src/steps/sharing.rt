//! Threads that each change the free word of a page of their own, over and over.
ghost use Rattle.std.specs.Prelude.{◌≡◌, ⊤};
ghost use Rattle.pas_profile.specs.Profiles.{IsPage};
ghost use Rattle.pas_steps.specs.Desks.{CanCall};
ghost use Rattle.pas_rights.specs.Leaves.{MayLeave};
ghost use Rattle.pas_trials.specs.Trials.{Brings};
ghost use Rattle.pas_timing.specs.Repeats.{MayTake};

use pas_profile::{Directory, Kind};
use pas_shared::{Job, SharedDesk};
use pas_steps::Desk;
use pas_trials::occupy;

const DIRECTORY: Directory = Directory {
    heap: 0,
    kind: Kind::Class(0),
};

/// Takes one grain of a page over and over, whose right is the actor's: an atomic and of its first free word.
fn take_often<D: Desk>(desk: &mut D, page: u32, directory: Directory, rounds: u64)
    requires page { IsPage (D.standing desk.old).seat.profile page }
    requires can { CanCall (D.standing desk.old) (MayLeave page directory) }
    ensures brings { Brings (D.standing desk.old) (D.standing desk.new) (MayLeave page directory) (MayLeave page directory) }
    ensures home { D.home desk.new ≡ D.home desk.old }
{
    for _round in 0..rounds {
        desk.take(page, 0, 1);
    }
}

/// Each worker makes the deed of its page, and so many takes there.
#[derive(Drop)]
pub struct Takes {
    pub rounds: u64,
}

impl Job<u32> for Takes {
    ghost may = { λ job region page pass. MayTake region page pass };

    ghost did = { λ job region page pass after left. ⊤ };

    fn perform(&self, page: &mut u32, desk: &mut SharedDesk<'_>) {
        if occupy(desk, *page, DIRECTORY, 1) {
            take_often(desk, *page, DIRECTORY, self.rounds);
        }
    }
}
