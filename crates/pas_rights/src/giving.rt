//! A run of grains is given.
ghost use Rattle.std.specs.Prelude.{◌≡◌, ◌+◌, ◌*◌, ◌<◌, ◌≤◌};
ghost use Rattle.pas_profile.specs.Profiles.{IsPage};
ghost use Rattle.pas_steps.specs.Desks.{CanCall};
ghost use Rattle.pas_rights.specs.Gives.{MayGive, GivesRun};

use pas_profile::limits::{GRAIN_BYTES, PAGE_BYTES};
use pas_profile::{Address, Block, Name, Word, read_life};
use pas_steps::Desk;

/// Gives the block of so many grains from this one of the page on, which are held; it may end on a later page. Two steps and one event.
#[inline(always)]
pub fn give<D: Desk>(desk: &mut D, heap: u8, page: u32, first: u8, grains: u32) -> Block
    requires page { IsPage (D.standing desk.old).seat.profile page }
    requires heap { heap < (D.standing desk.old).seat.profile.heaps }
    requires some { 1 ≤ grains }
    requires within { page * 256 + first + grains ≤ 256 * ((D.standing desk.old).seat.profile.pages + 1) }
    requires can { CanCall (D.standing desk.old) (MayGive (D.standing desk.old).seat.profile heap page first grains) }
    requires room { 1 ≤ D.spare_of desk.old }
    ensures gives { GivesRun heap page first grains result (D.standing desk.old) (D.standing desk.new) }
    ensures home { D.home desk.new ≡ D.home desk.old }
{
    let (turn, _, _) = read_life(desk.look(Word::Life(page, first)));
    let block = Block {
        name: Name {
            address: Address(page * PAGE_BYTES + first as u32 * GRAIN_BYTES),
            turn,
        },
        room: grains * GRAIN_BYTES,
        heap,
    };
    desk.give(block);
    block
}
