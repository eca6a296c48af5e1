//! The search for a run whose outer pages aren't backed.
ghost use Rattle.std.specs.Prelude.{◌≡◌, ◌≤◌, ◌<◌, ◌+◌};
ghost use Rattle.pas_scan.specs.Runs.{large_directory};
ghost use Rattle.pas_steps.specs.Desks.{CanCall};
ghost use Rattle.pas_large.specs.Finds.{FindRoom};
ghost use Rattle.pas_guard.specs.Seeks.{Seeks};

use crate::looking::are_bare;
use pas_bits::Mask4;
use pas_large::{claim_run, release};
use pas_profile::{Directory, Kind};
use pas_rights::put_and_leave;
use pas_scan::run_of_pages;
use pas_steps::Desk;

/// Claims the lowest run of `pages + 2` pages that can be claimed for the heap and whose outer pages are read as not backed then, and answers its first
/// page. Its pages are held then.
///
/// The pages are read from page 1 up, each once. Where the claim of a run breaks at a page, what was got is put back and left, and the next run
/// begins behind that page. Where an outer page is read as backed, the first page of the run is put back and left: the others are held still, as the
/// first pages of the next run. None where no run is left. The deeds that were made stay. At most 71 steps for each page of the region.
pub(crate) fn seek_run<D: Desk>(desk: &mut D, heap: u8, pages: u32) -> Option<u32>
    requires heap { heap < (D.standing desk.old).seat.profile.heaps }
    requires pages { pages ≤ (D.standing desk.old).seat.profile.pages }
    requires can { CanCall (D.standing desk.old) (FindRoom (D.standing desk.old).seat.profile (large_directory heap) 1 (D.spare_of desk.old)) }
    ensures seeks { Seeks (large_directory heap) pages (D.standing desk.old) (D.standing desk.new) result }
    ensures home { D.home desk.new ≡ D.home desk.old }
{
    let directory = Directory {
        heap,
        kind: Kind::Large,
    };
    // the pages from `from` to below `next` were read as usable, and those below `free` of them are held
    let mut from = 1;
    let mut free = 1;
    let mut next = 1;
    loop {
        if next < from + pages + 2 {
            match run_of_pages(desk, heap, next, 1) {
                None => {
                    release(desk, from, free, directory);
                    return None;
                }
                Some(page) => {
                    if page == next {
                        next = page + 1;
                    } else {
                        release(desk, from, free, directory);
                        from = page;
                        free = page;
                        next = page + 1;
                    }
                }
            }
        } else {
            match claim_run(desk, free, next, directory, true) {
                Some(page) => {
                    release(desk, from, free, directory);
                    from = page + 1;
                    free = page + 1;
                }
                None => {
                    if are_bare(desk, from, next - 1) {
                        return Some(from);
                    }
                    put_and_leave(desk, from, directory, &Mask4([u64::MAX; 4]));
                    from += 1;
                    free = next;
                }
            }
        }
    }
}
