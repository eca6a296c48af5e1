//! An actor allocates a bit-fit block, or refills a class from a shared page and may stop the slots again.
ghost use Rattle.std.specs.Prelude.{◌≡◌, ◌≤◌, ◌%◌};
ghost use Rattle.pas_profile.specs.{Classes.{IsClass, IsAlignment}, Profiles.{IsPage, IsDirectoryOf}};
ghost use Rattle.pas_steps.specs.Desks.{CanCall};
ghost use Rattle.pas_search.specs.Searches.{MaySearch, SearchRoom};
ghost use Rattle.pas_segregated.specs.{Masks.AreStarts, Stops.MayStopAt};
ghost use Rattle.pas_bitfit.specs.Allocates.{bitfit_directory};
ghost use Rattle.pas_partial.specs.Refills.{shared_directory};
ghost use Rattle.pas_trials.specs.Filling.{Steps};

use crate::filling::Filled;
use pas_bitfit::alloc;
use pas_partial::{refill, stop};
use pas_profile::{Block, NoRoom};
use pas_segregated::Slots;
use pas_steps::Desk;

/// The answer of a request of a bit-fit block, and how many steps the actor had made after it.
#[derive(Clone, Copy, PartialEq, Eq)]
pub struct Allocated {
    pub block: Result<Block, NoRoom>,
    pub allocated_at: u64,
}

/// Asks for a bit-fit block of heap 0.
pub fn allocate<D: Desk>(desk: &mut D, room: u32, align: u32) -> Allocated
    requires directory { IsDirectoryOf (D.standing desk.old).seat.profile (bitfit_directory 0) }
    requires room { (16 ≤ room) × (room ≤ 2048) × (room % 16 ≡ 0) }
    requires align { IsAlignment align }
    requires can { CanCall (D.standing desk.old) (SearchRoom (D.standing desk.old).seat.profile (bitfit_directory 0) 2 (D.spare_of desk.old)) }
    ensures steps { Steps (D.standing desk.old) (D.standing desk.new) (MaySearch (bitfit_directory 0)) }
{
    let block = alloc(desk, 0, room, align);
    Allocated {
        block,
        allocated_at: desk.count(),
    }
}

/// Stops the slots of a shared page where that is asked.
fn stop_where<D: Desk>(desk: &mut D, slots: Slots, stops: bool)
    requires page { IsPage (D.standing desk.old).seat.profile slots.page }
    requires directory { IsDirectoryOf (D.standing desk.old).seat.profile (shared_directory slots.heap) }
    requires class { IsClass slots.class }
    requires starts { AreStarts slots.class slots.starts }
    requires can { CanCall (D.standing desk.old) (MayStopAt (shared_directory slots.heap) slots) }
    ensures steps { Steps (D.standing desk.old) (D.standing desk.new) (MayStopAt (shared_directory slots.heap) slots) }
{
    if stops {
        stop(desk, slots);
    }
}

/// Refills the class from a shared page of heap 0, and stops the slots where that is asked.
pub fn fill_shared<D: Desk>(desk: &mut D, class: u8, stops: bool) -> Result<Filled, NoRoom>
    requires class { IsClass class }
    requires directory { IsDirectoryOf (D.standing desk.old).seat.profile (shared_directory 0) }
    requires can { CanCall (D.standing desk.old) (SearchRoom (D.standing desk.old).seat.profile (shared_directory 0) 1 (D.spare_of desk.old)) }
    ensures steps { Steps (D.standing desk.old) (D.standing desk.new) (MaySearch (shared_directory 0)) }
{
    let slots = match refill(desk, 0, class) {
        Ok(slots) => slots,
        Err(room) => return Err(room),
    };
    let filled_at = desk.count();
    stop_where(desk, slots, stops);
    Ok(Filled {
        slots,
        filled_at,
        stopped_at: desk.count(),
    })
}
