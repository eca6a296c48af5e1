//! Slots are given up.
ghost use Rattle.std.specs.Prelude.{◌≡◌};
ghost use Rattle.pas_profile.specs.{Classes.IsClass, Profiles.{IsPage, IsDirectoryOf}};
ghost use Rattle.pas_steps.specs.Desks.{CanCall};
ghost use Rattle.pas_segregated.specs.{Masks.AreStarts, Stops.{home_of, MayStopAt, StopsAt}};

use pas_profile::{Directory, Kind};
use pas_segregated::{Slots, stop_on};
use pas_steps::Desk;

/// Of which pages the slots are: of exclusive ones of their class where they came with their page's right, and of shared ones otherwise.
fn home(slots: &Slots) -> Directory
    ensures { result ≡ home_of slots.now }
{
    let kind = if slots.right {
        Kind::Class(slots.class)
    } else {
        Kind::Shared
    };
    Directory {
        heap: slots.heap,
        kind,
    }
}

/// Puts the grains of the slots back, and leaves their page where its right came with them. At most 23 steps, and no event.
pub(crate) fn give_up<D: Desk>(desk: &mut D, slots: Slots)
    requires page { IsPage (D.standing desk.old).seat.profile slots.page }
    requires directory { IsDirectoryOf (D.standing desk.old).seat.profile (home_of slots) }
    requires class { IsClass slots.class }
    requires starts { AreStarts slots.class slots.starts }
    requires can { CanCall (D.standing desk.old) (MayStopAt (home_of slots) slots) }
    ensures stops { StopsAt (home_of slots) slots (D.standing desk.old) (D.standing desk.new) }
    ensures home { D.home desk.new ≡ D.home desk.old }
{
    let home = home(&slots);
    stop_on(desk, slots, home);
}
