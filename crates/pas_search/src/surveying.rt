//! The survey of a directory: which of its offered pages is ranked best.
ghost use Rattle.std.specs.Prelude.{◌≡◌, MatchBool};
ghost use Rattle.pas_profile.specs.Profiles.{IsDirectoryOf};
ghost use Rattle.pas_steps.specs.Desks.{AnyView, CanCall};
ghost use Rattle.pas_search.specs.Ranks.{IsLower, IsBetterOf, Surveys};

use crate::ranking::Ranking;
use pas_profile::Directory;
use pas_rights::read;
use pas_scan::{Looked, first_offered};
use pas_steps::Desk;

/// The page that was ranked best, and its rank.
#[derive(Clone, Copy)]
pub struct Best {
    pub page: u32,
    pub rank: u32,
}

/// Whether the rank is lower than that of the best page so far, if there is one.
fn is_lower(rank: u32, best: Option<Best>) -> bool
    ensures { MatchBool result (IsLower rank best) (IsLower rank best → ⊥) }
{
    best.is_none_or(|best| rank < best.rank)
}

/// The better one of the best page so far and a page that is higher. Of equals it is the lower one.
fn better(best: Option<Best>, page: u32, rank: Option<u32>) -> Option<Best>
    ensures { IsBetterOf best page rank result }
{
    let Some(rank) = rank else {
        return best;
    };
    if is_lower(rank, best) {
        Some(Best { page, rank })
    } else {
        best
    }
}

/// The offered page of the directory that is ranked best, the lowest one among equals. None where no offered page has a rank.
///
/// Each page of the region is read: a look at each eligible word, and for each offered page those at the words of its row again and four at its free
/// words. Nothing else is done. On `n` pages that is at most `(4 + w) n` looks and one more for each 64 pages, where `w` is the lesser of 8 and
/// `n / 64 + 1`.
pub(crate) fn survey<R: Ranking, D: Desk>(
    ranking: &R,
    desk: &mut D,
    directory: Directory,
) -> Option<Best>
    requires directory { IsDirectoryOf (D.standing desk.old).seat.profile directory }
    requires asked { R.asked ranking.now }
    requires can { CanCall (D.standing desk.old) AnyView }
    ensures surveys { Surveys (R.ranks ranking.now) directory (D.standing desk.old) (D.standing desk.new) result }
    ensures home { D.home desk.new ≡ D.home desk.old }
{
    let mut looked = Looked::begin(directory);
    let mut best = None;
    let pages = desk.profile().pages;
    while looked.next <= pages {
        let Some(page) = first_offered(desk, &mut looked) else {
            return best;
        };
        let free = read(desk, page);
        best = better(best, page, ranking.rank(&free));
    }
    best
}
