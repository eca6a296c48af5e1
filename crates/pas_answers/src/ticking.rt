//! A tick: the epoch is raised.
ghost use Rattle.std.specs.Prelude.{◌≡◌, ◌<◌, ◌^◌, length};
ghost use Rattle.pas_records.specs.Rooms.{records_in, room_of};
ghost use Rattle.pas_steps.specs.{Clear.HasNothing, Desks.CanCall};
ghost use Rattle.pas_answers.specs.TicksAndPasses.{AnswersTick};

use pas_records::{Record, Records, Said};
use pas_steps::Desk;

/// Raises the epoch to at least this, and says which it is then. One step, and no event.
///
/// It never falls: where it was higher before it stays, and that one is said.
pub fn tick<D: Desk>(desk: &mut D, epoch: u64, out: &mut Records)
    requires epoch { epoch < 2 ^ 40 }
    requires can { CanCall (D.standing desk.old) HasNothing }
    requires record { length (records_in out.old) < room_of out.old }
    ensures ticks { AnswersTick epoch (D.standing desk.old) (D.standing desk.new) (records_in out.old) (records_in out.new) }
    ensures spare { D.spare_of desk.new ≡ D.spare_of desk.old }
    ensures room { room_of out.new ≡ room_of out.old }
    ensures home { D.home desk.new ≡ D.home desk.old }
{
    let old = desk.tick(epoch);
    out.push(Record::Said(desk.actor(), Said::Tick(old.max(epoch))));
}
