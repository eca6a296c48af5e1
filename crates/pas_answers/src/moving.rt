//! A block gets another size.
ghost use Rattle.std.specs.Prelude.{◌≡◌, ◌<◌, ◌+◌, ◌-◌, ◌/◌, ◌^◌};
ghost use Rattle.pas_profile.specs.Profiles.{IsAdmitted};
ghost use Rattle.pas_steps.specs.Desks.{CanCall};
ghost use Rattle.pas_cache.specs.{Caches.cached, Names.IsInRegion, Serves.wanted_for};
ghost use Rattle.pas_answers.specs.{Answers.suits as is_suited, Moves.{MayMove, Moves}};

use pas_cache::{Moved, ThreadCache};
use pas_large::Door;
use pas_profile::{Block, NoRoom};
use pas_steps::Desk;

/// Whether the block suits a request for so many bytes, where none count as one, at a multiple of the alignment.
fn suits(old: Block, size: u32, align: u32) -> bool
    requires align { 0 < align }
    ensures { result ≡ is_suited old size align }
{
    size.max(1) <= old.room && old.name.address.0 % align == 0
}

/// The block gets so many bytes at a multiple of the alignment: it is kept exactly where it suits. Otherwise another block of its heap is allocated, and then
/// the old name is logged, so that a flush ends it. Where the request is refused, the old block stands as it did, and nothing is logged.
///
/// Whether the old block lives isn't asked: its flush refuses a wrong name by its true reason. There is room for the request, as `serve` says, and for 64
/// events more where 64 names are logged.
#[tactic(auto, using(crate::proofs::Requests::serves, crate::proofs::Requests::can_serve, crate::proofs::Requests::no_fault))]
pub fn reallocate<D: Desk, O: Door>(
    cache: &mut ThreadCache,
    desk: &mut D,
    door: &mut O,
    old: Block,
    size: u32,
    align: u32,
) -> Result<Moved, NoRoom>
    requires admitted { IsAdmitted (D.standing desk.old).seat.profile size align old.heap }
    requires region { IsInRegion (D.standing desk.old).seat.profile old.name }
    requires turn { old.name.turn < 2 ^ 40 - 1 }
    requires can { CanCall (D.standing desk.old) (MayMove (D.standing desk.old).seat.profile (wanted_for (D.standing desk.old).seat.profile old.heap size align) (cached cache.old) (D.spare_of desk.old)) }
    ensures moves { Moves (O.answers door.old door.new old.heap ((size + 4096 - 1) / 4096)) (door.new ≡ door.old) (wanted_for (D.standing desk.old).seat.profile old.heap size align) old size align (cached cache.old) (cached cache.new) (D.standing desk.old) (D.standing desk.new) result }
    ensures home { D.home desk.new ≡ D.home desk.old }
{
    if suits(old, size, align) {
        return Ok(Moved::Kept);
    }
    match cache.serve(desk, door, old.heap, size, align) {
        Err(room) => Err(room),
        Ok(block) => match cache.free(desk, old.name) {
            Ok(()) => Ok(Moved::New(block)),
            Err(_fault) => unreachable!(),
        },
    }
}
