//! Another size for a block, as a replay asks for it.

use pas_cache::{Moved, ThreadCache};
use pas_large::Door;
use pas_profile::{Block, NoRoom};
use pas_steps::Desk;

/// What gives blocks another size. A replay is handed one, so that it stands on no crate that does it. The contract fixes the answer, so that all answer
/// alike.
pub trait Remake {
    ghost use Rattle.std.specs.Prelude.{◌≡◌, ◌<◌, ◌+◌, ◌-◌, ◌/◌, ◌^◌};
    ghost use Rattle.pas_profile.specs.Profiles.{IsAdmitted};
    ghost use Rattle.pas_steps.specs.Desks.{CanCall};
    ghost use Rattle.pas_cache.specs.{Caches.cached, Names.IsInRegion, Serves.wanted_for};
    ghost use Rattle.pas_answers.specs.Moves.{MayMove, Moves};

    /// The block gets so many bytes, where none count as one, at a multiple of the alignment: it is kept exactly where it suits. Otherwise another block of
    /// its heap is allocated, and then the old name is logged. Where the request is refused, the old block stands as it did, and nothing is logged.
    ///
    /// There is room for the request, as `serve` says, and for 64 events more where 64 names are logged.
    fn remake<D: Desk, O: Door>(
        &self,
        cache: &mut ThreadCache,
        desk: &mut D,
        door: &mut O,
        old: Block,
        size: u32,
        align: u32,
    ) -> Result<Moved, NoRoom>
        requires admitted { IsAdmitted (D.standing desk.old).seat.profile size align old.heap }
        requires region { IsInRegion (D.standing desk.old).seat.profile old.name }
        requires turn { old.name.turn < 2 ^ 40 - 1 }
        requires can { CanCall (D.standing desk.old) (MayMove (D.standing desk.old).seat.profile (wanted_for (D.standing desk.old).seat.profile old.heap size align) (cached cache.old) (D.spare_of desk.old)) }
        ensures moves { Moves (O.answers door.old door.new old.heap ((size + 4096 - 1) / 4096)) (door.new ≡ door.old) (wanted_for (D.standing desk.old).seat.profile old.heap size align) old size align (cached cache.old) (cached cache.new) (D.standing desk.old) (D.standing desk.new) result }
        ensures home { D.home desk.new ≡ D.home desk.old };
}
