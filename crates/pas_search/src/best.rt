//! The search for the page that is ranked best.
ghost use Rattle.std.specs.Prelude.{◌≡◌};
ghost use Rattle.pas_profile.specs.Profiles.{IsDirectoryOf};
ghost use Rattle.pas_steps.specs.Desks.{CanCall};
ghost use Rattle.pas_search.specs.Ranks.{RankRoom, TriesBest, SearchesByRank};

use crate::finding::find_page;
use crate::ranking::Ranking;
use crate::serving::{Served, Serving};
use crate::surveying::survey;
use pas_profile::{Directory, NoRoom};
use pas_rights::claim;
use pas_steps::Desk;

/// Tries the offered page of the directory that is ranked best, the lowest one among equals.
///
/// The pages are surveyed by looks alone, then that page is claimed, and the request is served from it. None where no offered page has a rank, where
/// another actor was first at the page, or where nothing fits on it any more, and then all is as it was and no event was made.
///
/// On `n` pages the survey takes at most `(4 + w) n` looks and one more for each 64 pages, where `w` is the lesser of 8 and `n / 64 + 1`. After it
/// there are a claim and the back end's steps.
pub fn take_best_page<S: Serving, R: Ranking, D: Desk>(
    serving: &S,
    ranking: &R,
    desk: &mut D,
    directory: Directory,
) -> Option<Served<S::Found>>
    requires directory { IsDirectoryOf (D.standing desk.old).seat.profile directory }
    requires suits { (S.rule serving.now).suits directory }
    requires asked { R.asked ranking.now }
    requires can { CanCall (D.standing desk.old) (RankRoom (D.standing desk.old).seat.profile directory (S.rule serving.now).events (D.spare_of desk.old)) }
    ensures tries { TriesBest (S.rule serving.now) (R.ranks ranking.now) D.tells directory (D.standing desk.old) (D.standing desk.new) result }
    ensures home { D.home desk.new ≡ D.home desk.old }
{
    let Some(best) = survey(ranking, desk, directory) else {
        return None;
    };
    if claim(desk, best.page, directory) {
        return match serving.serve(desk, best.page, directory) {
            None => None,
            Some(found) => Some(Served {
                page: best.page,
                found,
            }),
        };
    }
    None
}

/// Finds a page that serves the request, and what the back end takes of it: the offered page that is ranked best, where that one comes to something, and
/// otherwise what `find_page` finds.
///
/// `Held` and `NoSpace` come as `find_page` gives them. At most one deed is made, and a refusal makes no event and changes no block. To the steps of
/// `find_page` those of `take_best_page` are added.
pub fn find_best_page<S: Serving, R: Ranking, D: Desk>(
    serving: &S,
    ranking: &R,
    desk: &mut D,
    directory: Directory,
) -> Result<Served<S::Found>, NoRoom>
    requires directory { IsDirectoryOf (D.standing desk.old).seat.profile directory }
    requires suits { (S.rule serving.now).suits directory }
    requires asked { R.asked ranking.now }
    requires can { CanCall (D.standing desk.old) (RankRoom (D.standing desk.old).seat.profile directory (S.rule serving.now).events (D.spare_of desk.old)) }
    ensures searches { SearchesByRank (S.rule serving.now) (R.ranks ranking.now) D.tells directory (D.standing desk.old) (D.standing desk.new) result }
    ensures home { D.home desk.new ≡ D.home desk.old }
{
    if let Some(served) = take_best_page(serving, ranking, desk, directory) {
        return Ok(served);
    }
    find_page(serving, desk, directory)
}
