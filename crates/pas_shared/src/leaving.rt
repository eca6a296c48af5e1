//! An actor that leaves a bench.
ghost use Rattle.std.specs.Prelude.{◌≡◌, [], true};
ghost use Rattle.pas_shared.specs.{Ruled.{rows_in, among, left_of, only_this, leaver_of}, Benches.{first_row, IsFreshRow}};
ghost use Rattle.pas_shared.specs.declared.rule.Roster.TheVariants.{Benched};

use crate::region::SharedRegion;
use crate::rule::{Leaves, SplitsLeaver, TableSeat};

/// Splits this actor off.
pub(crate) fn leave<C: Leaves>(region: &SharedRegion, seat: &mut TableSeat, _actor: u8) -> TableSeat
    requires of { seat.old.table_id ≡ region.now.table.shared.table_id }
    requires leaver { C.leaver ≡ _actor }
    requires fresh { (seat.old.me ≡ (Benched (rows_in seat.old.me.0), [])) × IsFreshRow (rows_in seat.old.me.0) × (among (first_row (rows_in seat.old.me.0)).actors _actor ≡ true) }
    ensures of { seat.new.table_id ≡ seat.old.table_id }
    ensures left { seat.new.me ≡ (left_of (only_this _actor) seat.old.me.0, []) }
    ensures table { result.table_id ≡ region.now.table.shared.table_id }
    ensures alone { result.me ≡ (leaver_of _actor seat.old.me.0, []) }
{
    region.table.shared.split_seat::<SplitsLeaver<C>>(seat)
}
