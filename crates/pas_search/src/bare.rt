//! The search of pages without a deed.
ghost use Rattle.std.specs.Prelude.{◌≡◌};
ghost use Rattle.pas_profile.specs.Profiles.{IsDirectoryOf};
ghost use Rattle.pas_steps.specs.Desks.{CanCall};
ghost use Rattle.pas_search.specs.Searches.{BareRoom, SearchesBare};

use crate::serving::{Served, Serving};
use pas_profile::Directory;
use pas_scan::first_without_deed;
use pas_steps::Desk;

/// Makes a deed on the lowest page without one, and lets the back end serve from the page.
///
/// Where another actor was first at a page, the search goes on with the next one.
pub(crate) fn search_bare<S: Serving, D: Desk>(
    serving: &S,
    desk: &mut D,
    directory: Directory,
) -> Option<Served<S::Found>>
    requires directory { IsDirectoryOf (D.standing desk.old).seat.profile directory }
    requires suits { (S.rule serving.now).suits directory }
    requires can { CanCall (D.standing desk.old) (BareRoom (D.standing desk.old).seat.profile (S.rule serving.now).events (D.spare_of desk.old)) }
    ensures found { SearchesBare (S.rule serving.now) directory (D.standing desk.old) (D.standing desk.new) result }
    ensures home { D.home desk.new ≡ D.home desk.old }
{
    let pages = desk.profile().pages;
    let mut from = 1;
    while from <= pages {
        let Some(page) = first_without_deed(desk, from) else {
            return None;
        };
        if desk.deed(page, directory) == 0 {
            return match serving.serve(desk, page, directory) {
                None => None,
                Some(found) => Some(Served { page, found }),
            };
        }
        from = page + 1;
    }
    None
}
