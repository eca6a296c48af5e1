//! The search for a run that can be claimed.
ghost use Rattle.std.specs.Prelude.{◌≡◌, ◌≤◌, ◌<◌, ◌+◌};
ghost use Rattle.pas_scan.specs.Runs.{large_directory};
ghost use Rattle.pas_steps.specs.Desks.{CanCall};
ghost use Rattle.pas_large.specs.Finds.{FindRoom, Finds};

use crate::running::claim_run;
use pas_profile::{Directory, Kind};
use pas_scan::next_run;
use pas_steps::Desk;

/// Claims the lowest run of so many pages that can be claimed for a large block of the heap, and answers its first page. Its pages are held then.
///
/// The scan goes over the pages from page 1 up and reads each once. Where the claim of a run breaks at a page, what was got is put back and left;
/// the next run begins behind that page, and the scan goes on behind the last page that it read. None where no run is left: each deed word was
/// read then. The deeds that a broken claim made stay. At most 54 steps for each page of the region.
pub(crate) fn find_run<D: Desk>(desk: &mut D, heap: u8, pages: u32) -> Option<u32>
    requires heap { heap < (D.standing desk.old).seat.profile.heaps }
    requires pages { 1 ≤ pages }
    requires can { CanCall (D.standing desk.old) (FindRoom (D.standing desk.old).seat.profile (large_directory heap) 1 (D.spare_of desk.old)) }
    ensures finds { Finds (large_directory heap) pages D.tells (D.standing desk.old) (D.standing desk.new) result }
    ensures home { D.home desk.new ≡ D.home desk.old }
{
    let directory = Directory {
        heap,
        kind: Kind::Large,
    };
    let mut from = 1;
    let mut next = 1;
    while let Some(first) = next_run(desk, heap, from, next, pages) {
        match claim_run(desk, first, first + pages, directory, true) {
            None => return Some(first),
            Some(page) => {
                from = page + 1;
                next = first + pages;
            }
        }
    }
    None
}
