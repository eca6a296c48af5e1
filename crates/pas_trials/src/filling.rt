//! An actor refills a class, and may stop the slots again.
ghost use Rattle.std.specs.Prelude.{◌≡◌};
ghost use Rattle.pas_profile.specs.Profiles.{IsPage, IsDirectoryOf};
ghost use Rattle.pas_steps.specs.Desks.{CanCall};
ghost use Rattle.pas_search.specs.Searches.{MaySearch, SearchRoom};
ghost use Rattle.pas_segregated.specs.{Masks.AreStarts, Stops.{class_directory, directory_of, MayStop}};
ghost use Rattle.pas_trials.specs.Filling.{Steps};

use pas_profile::NoRoom;
use pas_segregated::{Slots, refill, stop};
use pas_steps::Desk;

/// Slots that a refill gave, how many steps the actor had made after the refill, and how many after their stop.
#[derive(Clone, Copy, PartialEq, Eq)]
pub struct Filled {
    pub slots: Slots,
    pub filled_at: u64,
    pub stopped_at: u64,
}

/// Stops the slots where that is asked.
fn stop_where<D: Desk>(desk: &mut D, slots: Slots, stops: bool)
    requires page { IsPage (D.standing desk.old).seat.profile slots.page }
    requires directory { IsDirectoryOf (D.standing desk.old).seat.profile (directory_of slots) }
    requires starts { AreStarts slots.class slots.starts }
    requires can { CanCall (D.standing desk.old) (MayStop slots) }
    ensures steps { Steps (D.standing desk.old) (D.standing desk.new) (MayStop slots) }
{
    if stops {
        stop(desk, slots);
    }
}

/// Refills the class, and stops the slots where that is asked. At most two events.
pub fn fill<D: Desk>(desk: &mut D, heap: u8, class: u8, stops: bool) -> Result<Filled, NoRoom>
    requires directory { IsDirectoryOf (D.standing desk.old).seat.profile (class_directory heap class) }
    requires can { CanCall (D.standing desk.old) (SearchRoom (D.standing desk.old).seat.profile (class_directory heap class) 1 (D.spare_of desk.old)) }
    ensures steps { Steps (D.standing desk.old) (D.standing desk.new) (MaySearch (class_directory heap class)) }
{
    let slots = match refill(desk, heap, class) {
        Ok(slots) => slots,
        Err(room) => return Err(room),
    };
    let filled_at = desk.count();
    stop_where(desk, slots, stops);
    Ok(Filled {
        slots,
        filled_at,
        stopped_at: desk.count(),
    })
}
