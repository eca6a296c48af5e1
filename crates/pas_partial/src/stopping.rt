//! Slots are given up.
ghost use Rattle.std.specs.Prelude.{◌≡◌};
ghost use Rattle.pas_profile.specs.{Classes.IsClass, Profiles.{IsPage, IsDirectoryOf}};
ghost use Rattle.pas_steps.specs.Desks.{CanCall};
ghost use Rattle.pas_segregated.specs.{Masks.AreStarts, Stops.{MayStopAt, StopsAt}};
ghost use Rattle.pas_partial.specs.Refills.{shared_directory};

use pas_profile::{Directory, Kind};
use pas_segregated::{Slots, stop_on};
use pas_steps::Desk;

/// Puts the grains of the slots back. Where no slot is left nothing is put. At most 23 steps, and no event.
pub fn stop<D: Desk>(desk: &mut D, slots: Slots)
    requires page { IsPage (D.standing desk.old).seat.profile slots.page }
    requires directory { IsDirectoryOf (D.standing desk.old).seat.profile (shared_directory slots.heap) }
    requires class { IsClass slots.class }
    requires starts { AreStarts slots.class slots.starts }
    requires can { CanCall (D.standing desk.old) (MayStopAt (shared_directory slots.heap) slots) }
    ensures stops { StopsAt (shared_directory slots.heap) slots (D.standing desk.old) (D.standing desk.new) }
    ensures home { D.home desk.new ≡ D.home desk.old }
{
    let directory = Directory {
        heap: slots.heap,
        kind: Kind::Shared,
    };
    stop_on(desk, slots, directory);
}
