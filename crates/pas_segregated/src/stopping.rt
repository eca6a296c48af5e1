//! Slots are given up.
ghost use Rattle.std.specs.Prelude.{◌≡◌};
ghost use Rattle.pas_profile.specs.{Classes.IsClass, Profiles.{IsPage, IsDirectoryOf}};
ghost use Rattle.pas_steps.specs.Desks.{CanCall};
ghost use Rattle.pas_segregated.specs.{Masks.AreStarts, Stops.{directory_of, MayStop, MayStopAt, Stops, StopsAt}};

use crate::slots::{Slots, covered};
use pas_profile::{Directory, Kind};
use pas_rights::{leave, put_and_return};
use pas_steps::Desk;

/// Puts the grains of the slots back, and leaves their page where its right came with them.
///
/// Where no slot is left nothing is put, and the page isn't looked at on that account. At most 23 steps, and no event.
pub fn stop<D: Desk>(desk: &mut D, slots: Slots)
    requires page { IsPage (D.standing desk.old).seat.profile slots.page }
    requires directory { IsDirectoryOf (D.standing desk.old).seat.profile (directory_of slots) }
    requires starts { AreStarts slots.class slots.starts }
    requires can { CanCall (D.standing desk.old) (MayStop slots) }
    ensures stops { Stops slots (D.standing desk.old) (D.standing desk.new) }
    ensures home { D.home desk.new ≡ D.home desk.old }
{
    let directory = Directory {
        heap: slots.heap,
        kind: Kind::Class(slots.class),
    };
    stop_on(desk, slots, directory);
}

/// The same for slots of a page of any directory.
pub fn stop_on<D: Desk>(desk: &mut D, slots: Slots, directory: Directory)
    requires page { IsPage (D.standing desk.old).seat.profile slots.page }
    requires directory { IsDirectoryOf (D.standing desk.old).seat.profile directory }
    requires class { IsClass slots.class }
    requires starts { AreStarts slots.class slots.starts }
    requires can { CanCall (D.standing desk.old) (MayStopAt directory slots) }
    ensures stops { StopsAt directory slots (D.standing desk.old) (D.standing desk.new) }
    ensures home { D.home desk.new ≡ D.home desk.old }
{
    let grains = covered(&slots.starts, slots.class);
    put_and_return(desk, slots.page, directory, &grains);
    if slots.right {
        leave(desk, slots.page, directory);
    }
}
