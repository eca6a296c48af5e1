//! Whether a page may belong to a run.
ghost use Rattle.std.specs.Prelude.{◌≡◌};
ghost use Rattle.pas_profile.specs.Profiles.{IsPage, IsDirectoryOf};
ghost use Rattle.pas_steps.specs.Desks.{AnyView, CanCall};
ghost use Rattle.pas_scan.specs.Runs.{LooksFree, ReadsUsable};

use pas_bits::page_vector::has_page;
use pas_profile::{Directory, Word, deed_word};
use pas_steps::Desk;

/// Whether each free word of the page is read as all ones: a look at each, the lowest first, up to the first that isn't.
fn are_free<D: Desk>(desk: &mut D, page: u32) -> bool
    requires page { IsPage (D.standing desk.old).seat.profile page }
    requires can { CanCall (D.standing desk.old) AnyView }
    ensures looks { LooksFree page (D.standing desk.old) (D.standing desk.new) result }
    ensures home { D.home desk.new ≡ D.home desk.old }
{
    for word in 0..4u8 {
        let value = desk.look(Word::Free(page, word));
        if value != u64::MAX {
            return false;
        }
    }
    true
}

/// Whether the page is read as usable for a run of the directory: as without a deed, or as of the directory, offered, and with all its grains
/// free. At most six looks.
pub(crate) fn is_usable<D: Desk>(desk: &mut D, page: u32, directory: Directory) -> bool
    requires page { IsPage (D.standing desk.old).seat.profile page }
    requires directory { IsDirectoryOf (D.standing desk.old).seat.profile directory }
    requires can { CanCall (D.standing desk.old) AnyView }
    ensures reads { ReadsUsable directory page (D.standing desk.old) (D.standing desk.new) result }
    ensures home { D.home desk.new ≡ D.home desk.old }
{
    let deed = desk.look(Word::Deed(page));
    if deed == 0 {
        return true;
    }
    if deed != deed_word(directory) {
        return false;
    }
    let offered = desk.look(Word::Eligible(directory.number(), page / 64));
    has_page(offered, page) && are_free(desk, page)
}
