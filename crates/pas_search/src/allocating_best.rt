//! A block is allocated on the page that a rule ranks best.
ghost use Rattle.std.specs.Prelude.{◌≡◌};
ghost use Rattle.pas_profile.specs.Profiles.{IsDirectoryOf};
ghost use Rattle.pas_steps.specs.Desks.{CanCall};
ghost use Rattle.pas_search.specs.{Ranks.RankRoom, ByRank.AllocatesByRank, Placements.{placed, placing}};

use crate::allocating::alloc;
use crate::best::take_best_page;
use crate::by_placement::ByPlacement;
use crate::placing::Placing;
use crate::ranking::Ranking;
use pas_profile::{Block, Directory, NoRoom};
use pas_rights::{give, leave};
use pas_steps::Desk;

/// A block of the run that is placed on the offered page of the directory that is ranked best, the lowest one among equals. Just its grains are
/// taken, the block is given, and then the page is left. Nothing is kept.
///
/// Where no offered page has a rank, where another actor is first at the best one, or where nothing fits there any more, what `alloc` does follows, with
/// its refusals, its events and its steps. Before that, or alone, come on `n` pages at most `(4 + w) n` looks and one more for each 64 pages, where `w` is
/// the lesser of 8 and `n / 64 + 1`, and the try of one page in 16 steps. The block and the leave take at most 13 steps more, and there is no event of
/// theirs but the back and the give.
pub fn alloc_best<P: Placing, R: Ranking, D: Desk>(
    pages: &ByPlacement<P>,
    ranking: &R,
    desk: &mut D,
    directory: Directory,
) -> Result<Block, NoRoom>
    requires directory { IsDirectoryOf (D.standing desk.old).seat.profile directory }
    requires suits { (placing (P.placement pages.now.0)).suits directory }
    requires asked { R.asked ranking.now }
    requires can { CanCall (D.standing desk.old) (RankRoom (D.standing desk.old).seat.profile directory 2 (D.spare_of desk.old)) }
    ensures allocates { AllocatesByRank (placed (P.placement pages.now.0)) (P.placement pages.now.0).run (R.ranks ranking.now) directory D.tells (D.standing desk.old) (D.standing desk.new) result }
    ensures home { D.home desk.new ≡ D.home desk.old }
{
    let Some(served) = take_best_page(pages, ranking, desk, directory) else {
        return alloc(pages, desk, directory);
    };
    let run = served.found;
    let block = give(
        desk,
        directory.heap,
        served.page,
        run.first,
        run.grains as u32,
    );
    leave(desk, served.page, directory);
    Ok(block)
}
