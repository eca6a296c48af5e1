//! Guards whose blocks have ended are lowered.
ghost use Rattle.std.specs.Prelude.{◌≡◌, ◌≤◌, ◌+◌, ◌/◌, ◌%◌, length};
ghost use Rattle.pas_profile.specs.{Profiles.IsPage, Blocks.address_of};
ghost use Rattle.pas_records.specs.Rooms.{records_in, room_of};
ghost use Rattle.pas_steps.specs.Desks.{AnyView, CanCall};
ghost use Rattle.pas_guard.specs.{Books.{guards_in, size_of_book, FitsBook}, Sweeps.{LooksOver, Sweeps}};

use crate::book::GuardBook;
use crate::lowering::lower;
use crate::passing::{has_ended, life_word, pass_alive};
use pas_profile::Guard;
use pas_records::{Record, Records, Said};
use pas_steps::Desk;

/// Whether the guard goes down: its block has ended, by a look at the life word of its first grain, or all are to go.
fn goes_down<D: Desk>(desk: &mut D, guard: Guard, all: bool) -> bool
    requires page { IsPage (D.standing desk.old).seat.profile (address_of guard.block.name / 4096) }
    requires can { CanCall (D.standing desk.old) AnyView }
    ensures looks { LooksOver all guard (D.standing desk.old) (D.standing desk.new) result }
    ensures home { D.home desk.new ≡ D.home desk.old }
{
    let word = desk.look(life_word(guard));
    let over = has_ended(guard, word);
    all || over
}

impl GuardBook {
    /// Lowers each guard whose block has ended, by a look at its life word, or all of them: both pages are put back, the guard leaves the book, and this is
    /// said. The others stay up, in their order. At most 25 steps for each guard, and no event.
    pub fn sweep<D: Desk>(&mut self, desk: &mut D, all: bool, lowered: &mut Records)
        requires room { length (records_in lowered.old) + length (guards_in self.old) ≤ room_of lowered.old }
        requires can { CanCall (D.standing desk.old) (FitsBook (D.standing desk.old).seat.profile (guards_in self.old)) }
        ensures sweeps { Sweeps all (guards_in self.old) (guards_in self.new) (records_in lowered.old) (records_in lowered.new) (D.standing desk.old) (D.standing desk.new) }
        ensures size { size_of_book self.new ≡ size_of_book self.old }
        ensures room { room_of lowered.new ≡ room_of lowered.old }
        ensures home { D.home desk.new ≡ D.home desk.old }
    {
        let actor = desk.actor();
        let mut place = 0;
        loop {
            place = pass_alive(desk, self.guards(), place, all);
            if place == self.guards().len() {
                return;
            }
            let guard = self.guards()[place];
            if goes_down(desk, guard, all) {
                lower(desk, guard);
                self.take_out(place);
                lowered.push(Record::Said(
                    actor,
                    Said::Lowered {
                        low: guard.low,
                        high: guard.high,
                    },
                ));
            } else {
                place += 1;
            }
        }
    }
}
