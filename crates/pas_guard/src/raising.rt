//! Guards go up.
ghost use Rattle.std.specs.Prelude.{◌≡◌, ◌≤◌, ◌<◌, ◌+◌, length};
ghost use Rattle.pas_steps.specs.Desks.{CanCall};
ghost use Rattle.pas_guard.specs.{Books.{guards_in, size_of_book}, Raises.{RaiseRoom, Raises}};

use crate::book::GuardBook;
use crate::guarding::guard_run;
use crate::seeking::seek_run;
use pas_profile::{Block, Directory, Guard, Kind};
use pas_steps::Desk;

impl GuardBook {
    /// A block of so many whole pages of the heap between two pages of the heap that aren't backed, which the actor holds whole then.
    ///
    /// It stands in the lowest run of `pages + 2` pages that can be claimed and whose outer pages are read as not backed. None where each such run has a
    /// page that was read as not usable, or was lost or broken, or an outer page that was read as backed while the run was held whole. The deeds that were
    /// made, from the lowest page up, stay. At most one event for each deed that isn't known, and `pages + 1` more.
    pub fn raise<D: Desk>(&mut self, desk: &mut D, heap: u8, pages: u32) -> Option<Block>
        requires book { length (guards_in self.old) < size_of_book self.old }
        requires heap { heap < (D.standing desk.old).seat.profile.heaps }
        requires some { 1 ≤ pages }
        requires pages { pages ≤ (D.standing desk.old).seat.profile.pages }
        requires can { CanCall (D.standing desk.old) (RaiseRoom (D.standing desk.old).seat.profile (guards_in self.old) (pages + 1) (D.spare_of desk.old)) }
        ensures raises { Raises heap pages (guards_in self.old) (guards_in self.new) (D.standing desk.old) (D.standing desk.new) result }
        ensures size { size_of_book self.new ≡ size_of_book self.old }
        ensures home { D.home desk.new ≡ D.home desk.old }
    {
        let directory = Directory {
            heap,
            kind: Kind::Large,
        };
        match seek_run(desk, heap, pages) {
            Some(first) => {
                let block = guard_run(desk, first, pages, directory);
                self.push(Guard {
                    low: first,
                    high: first + pages + 1,
                    block,
                });
                Some(block)
            }
            None => None,
        }
    }
}
