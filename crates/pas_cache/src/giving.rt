//! A slot is given.
ghost use Rattle.std.specs.Prelude.{◌≡◌, ◌≤◌};
ghost use Rattle.pas_steps.specs.Desks.{CanCall};
ghost use Rattle.pas_bits.specs.Masks.{HasMember};
ghost use Rattle.pas_cache.specs.Parts.{MayGiveSlot, GivesLowest};

use pas_profile::Block;
use pas_profile::classes::class_size;
use pas_profile::limits::GRAIN_BYTES;
use pas_rights::give;
use pas_segregated::Slots;
use pas_steps::Desk;

/// Gives the lowest of the slots, of which the others are left. Two steps and one event.
#[inline(always)]
pub(crate) fn give_lowest<D: Desk>(desk: &mut D, slots: &mut Slots) -> Block
    requires some { HasMember slots.old.starts }
    requires can { CanCall (D.standing desk.old) (MayGiveSlot (D.standing desk.old).seat.profile slots.old) }
    requires room { 1 ≤ D.spare_of desk.old }
    ensures gives { GivesLowest slots.old slots.new result (D.standing desk.old) (D.standing desk.new) }
    ensures home { D.home desk.new ≡ D.home desk.old }
{
    let Some(start) = slots.starts.first_set_from(0) else {
        unreachable!();
    };
    let grains = class_size(slots.class) / GRAIN_BYTES;
    let block = give(desk, slots.heap, slots.page, start, grains);
    slots.starts.clear(start);
    block
}
