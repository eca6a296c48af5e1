//! A block is allocated: the run that a search found is given, and its page is left.
ghost use Rattle.std.specs.Prelude.{◌≡◌, ◌≤◌, ◌+◌};
ghost use Rattle.pas_profile.specs.Profiles.{IsDirectoryOf};
ghost use Rattle.pas_steps.specs.{Clear.HasNothing, Desks.CanCall};
ghost use Rattle.pas_search.specs.{Searches.SearchRoom, Allocates.AllocatesRun, Placements.{placed, placing}};

use crate::by_placement::ByPlacement;
use crate::finding::find_page;
use crate::placing::Placing;
use pas_profile::{Block, Directory, NoRoom};
use pas_rights::{give, leave};
use pas_steps::Desk;

/// A block of the run that is placed on the lowest offered page of the directory where one fits, or on the lowest page without a deed.
/// Just its grains are taken, the block is given, and then the page is left. Nothing is kept.
///
/// `NoSpace` and `Held` come as the search of the directory gives them. At most two events where the deed of each page is known, and three
/// otherwise. An actor that had nothing has nothing afterwards. A page's turn takes at most 15 steps, the search of `n` pages at most `(18 + w) n + 81` and 66 more for each 64 of them, where `w`
/// is the lesser of 8 and `n / 64 + 1`, and the block and the leave 13 more.
pub fn alloc<P: Placing, D: Desk>(
    pages: &ByPlacement<P>,
    desk: &mut D,
    directory: Directory,
) -> Result<Block, NoRoom>
    requires directory { IsDirectoryOf (D.standing desk.old).seat.profile directory }
    requires suits { (placing (P.placement pages.now.0)).suits directory }
    requires can { CanCall (D.standing desk.old) (SearchRoom (D.standing desk.old).seat.profile directory 2 (D.spare_of desk.old)) }
    ensures allocates { AllocatesRun (placed (P.placement pages.now.0)) (P.placement pages.now.0).run directory D.tells (D.standing desk.old) (D.standing desk.new) result }
    ensures rests { CanCall (D.standing desk.old) HasNothing → CanCall (D.standing desk.new) HasNothing }
    ensures room { D.spare_of desk.old ≤ D.spare_of desk.new + 3 }
    ensures home { D.home desk.new ≡ D.home desk.old }
{
    match find_page(pages, desk, directory) {
        Ok(served) => {
            let run = served.found;
            let block = give(
                desk,
                directory.heap,
                served.page,
                run.first,
                run.grains as u32,
            );
            leave(desk, served.page, directory);
            Ok(block)
        }
        Err(room) => Err(room),
    }
}
