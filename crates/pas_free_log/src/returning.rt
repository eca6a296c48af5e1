//! The grains of a block that ended, stamped and put back page by page.
ghost use Rattle.std.specs.Prelude.{◌≡◌};
ghost use Rattle.pas_steps.specs.Desks.{CanCall};
ghost use Rattle.pas_free_log.specs.{Conditions.{IsRun, IsRunOnPage}, Returns.{MayReturn, ReturnsPage, ReturnsRun}};

use pas_profile::limits::PAGE_GRAINS;
use pas_profile::{Word, read_deed};
use pas_rights::{put_run, returned};
use pas_steps::Desk;

/// Stamps the page of the run, puts the run's grains back, and ends what is owed on the page. At most fourteen steps.
///
/// The page is stamped before its grains are free: whoever finds all its grains free reads the stamp of each end on it.
fn return_page<D: Desk>(desk: &mut D, grain: u32, grains: u32)
    requires run { IsRunOnPage (D.standing desk.old).seat.profile grain grains }
    requires can { CanCall (D.standing desk.old) (MayReturn grain grains) }
    ensures returns { ReturnsPage grain grains (D.standing desk.old) (D.standing desk.new) }
    ensures home { D.home desk.new ≡ D.home desk.old }
{
    let page = grain / PAGE_GRAINS;
    let Some(directory) = read_deed(desk.look(Word::Deed(page))) else {
        unreachable!();
    };
    desk.stamp(page);
    let first = (grain % PAGE_GRAINS) as u8;
    put_run(desk, page, first, grains as u16);
    returned(desk, page, directory);
}

/// Stamps and puts back the run of a block that ended, page by page from the lowest one. At most fourteen steps a page.
pub(crate) fn return_run<D: Desk>(desk: &mut D, grain: u32, grains: u32)
    requires run { IsRun (D.standing desk.old).seat.profile grain grains }
    requires can { CanCall (D.standing desk.old) (MayReturn grain grains) }
    ensures returns { ReturnsRun grain grains (D.standing desk.old) (D.standing desk.new) }
    ensures home { D.home desk.new ≡ D.home desk.old }
{
    let end = grain + grains;
    let mut from = grain;
    while from < end {
        let next = end.min((from / PAGE_GRAINS + 1) * PAGE_GRAINS);
        return_page(desk, from, next - from);
        from = next;
    }
}
