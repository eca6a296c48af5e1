//! The search of offered pages.
ghost use Rattle.std.specs.Prelude.{ℕ, ◌≡◌, ◌≤◌, false};
ghost use Rattle.pas_profile.specs.Profiles.{IsDirectoryOf};
ghost use Rattle.pas_steps.specs.Desks.{CanCall};
ghost use Rattle.pas_scan.specs.Marks.{is_marked};
ghost use Rattle.pas_search.specs.Searches.{MaySearch, SearchesOffered};

use crate::passing::{note_unfit, pass_short};
use crate::serving::{Served, Serving};
use pas_rights::claim;
use pas_scan::{Looked, first_offered};
use pas_steps::Desk;

/// Tries the offered pages, from the lowest up.
///
/// A page whose right another actor got first is passed by. One whose right was got, and of which nothing fits, is left and marked. It is noted as short,
/// so that a later search passes it by: its visit is told to the desk, and not made.
pub(crate) fn search_offered<S: Serving, D: Desk>(
    serving: &S,
    desk: &mut D,
    looked: &mut Looked,
) -> Option<Served<S::Found>>
    requires next { looked.old.next ≡ 1 }
    requires unfit { (p : ℕ) → is_marked looked.old.unfit p ≡ false }
    requires directory { IsDirectoryOf (D.standing desk.old).seat.profile looked.old.directory }
    requires suits { (S.rule serving.now).suits looked.old.directory }
    requires can { CanCall (D.standing desk.old) (MaySearch looked.old.directory) }
    requires room { (S.rule serving.now).events ≤ D.spare_of desk.old }
    ensures directory { looked.new.directory ≡ looked.old.directory }
    ensures found { SearchesOffered (S.rule serving.now) looked.old.directory (D.standing desk.old) (D.standing desk.new) looked.new.unfit result }
    ensures home { D.home desk.new ≡ D.home desk.old }
{
    let directory = looked.directory;
    let pages = desk.profile().pages;
    pass_short(serving, desk, looked);
    while looked.next <= pages {
        let Some(page) = first_offered(desk, looked) else {
            return None;
        };
        if claim(desk, page, directory) {
            if let Some(found) = serving.serve(desk, page, directory) {
                return Some(Served { page, found });
            }
            looked.mark_unfit(page);
            note_unfit(serving, desk, page, directory);
            pass_short(serving, desk, looked);
        }
    }
    None
}
