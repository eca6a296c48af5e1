//! The search for a page that serves a request.
ghost use Rattle.std.specs.Prelude.{◌≡◌};
ghost use Rattle.pas_profile.specs.Profiles.{IsDirectoryOf};
ghost use Rattle.pas_steps.specs.Desks.{CanCall};
ghost use Rattle.pas_search.specs.Searches.{SearchRoom, Searches};

use crate::bare::search_bare;
use crate::offered::search_offered;
use crate::serving::{Served, Serving};
use pas_profile::{Directory, NoRoom};
use pas_scan::{Looked, verdict};
use pas_steps::Desk;

/// Finds a page that serves the request, and what the back end takes of it.
///
/// The offered pages of the directory are tried from the lowest up. Where none of them serves, a deed is made on the lowest page without one,
/// and the request is served from that page. Where there is none either, the answer is `Held` with the lowest page of the directory that
/// was in some actor's hands, and `NoSpace` where none was. At most one deed is made, and a refusal makes no event and changes no block.
///
/// Steps: a look at each eligible word, and at those of a row again for each page that is tried; a claim for each of these, and the back end's
/// steps; a look at each deed word, and a step for each that is read as 0. A refusal looks at each deed word once more, and at the parked words.
/// Where the back end makes at most `s` steps on a page, that is at most `(s + w + 3) n + s + 66` steps on `n` pages, and 66 more for each 64
/// of them; `w` is the words of a row, the lesser of 8 and `n / 64 + 1`.
pub fn find_page<S: Serving, D: Desk>(
    serving: &S,
    desk: &mut D,
    directory: Directory,
) -> Result<Served<S::Found>, NoRoom>
    requires directory { IsDirectoryOf (D.standing desk.old).seat.profile directory }
    requires suits { (S.rule serving.now).suits directory }
    requires can { CanCall (D.standing desk.old) (SearchRoom (D.standing desk.old).seat.profile directory (S.rule serving.now).events (D.spare_of desk.old)) }
    ensures searches { Searches (S.rule serving.now) D.tells directory (D.standing desk.old) (D.standing desk.new) result }
    ensures home { D.home desk.new ≡ D.home desk.old }
{
    let mut looked = Looked::begin(directory);
    if let Some(served) = search_offered(serving, desk, &mut looked) {
        return Ok(served);
    }
    if let Some(served) = search_bare(serving, desk, directory) {
        return Ok(served);
    }
    Err(verdict(desk, &looked))
}
