//! A guard is lowered.
ghost use Rattle.std.specs.Prelude.{◌≡◌};
ghost use Rattle.pas_steps.specs.Desks.{CanCall};
ghost use Rattle.pas_guard.specs.Lowers.{MayLower, Lowers};

use pas_bits::Mask4;
use pas_profile::{Directory, Guard, Kind};
use pas_rights::put_and_return;
use pas_steps::Desk;

/// Puts the outer pages of a guard back, the low one first. At most 24 steps, and no event.
pub(crate) fn lower<D: Desk>(desk: &mut D, guard: Guard)
    requires can { CanCall (D.standing desk.old) (MayLower (D.standing desk.old).seat.profile guard) }
    ensures lowers { Lowers guard (D.standing desk.old) (D.standing desk.new) }
    ensures home { D.home desk.new ≡ D.home desk.old }
{
    let directory = Directory {
        heap: guard.block.heap,
        kind: Kind::Large,
    };
    let full = Mask4([u64::MAX; 4]);
    put_and_return(desk, guard.low, directory, &full);
    put_and_return(desk, guard.high, directory, &full);
}
