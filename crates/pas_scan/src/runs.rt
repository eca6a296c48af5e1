//! The search for a run of usable pages.
ghost use Rattle.std.specs.Prelude.{◌≡◌, ◌≤◌, ◌<◌, ◌+◌, ◌-◌, ◌^◌, if◌then◌else◌};
ghost use Rattle.pas_steps.specs.Desks.{AnyView, CanCall};
ghost use Rattle.pas_scan.specs.Runs.{large_directory, FindsRun};

use crate::passed::pass_held;
use crate::usable::is_usable;
use pas_profile::{Directory, Kind};
use pas_steps::Desk;

/// How many usable pages in a row end with a page, of so many that end before it.
fn longer(length: u32, usable: bool) -> u32
    requires { length < 2 ^ 32 - 1 }
    ensures { result ≡ (if usable then length + 1 else 0) }
{
    if usable { length + 1 } else { 0 }
}

/// The length, or 0 where pages were passed by behind it.
fn kept(length: u32, passed: bool) -> u32
    ensures { result ≡ (if passed then 0 else length) }
{
    if passed { 0 } else { length }
}

/// The first page of the lowest run of so many pages, from page `from` on, that were all read as usable for a large block of the heap. The pages from
/// `from` to below `next` were read so before, and fewer than `pages` are.
///
/// Each lower run from there on has a page that was read as not usable, and None comes exactly where each run has one. A page from `next` on is read
/// once: its deed word first, and its eligible bit and its free words only where the deed word is the heap's, so at most six looks a page. On a
/// region whose pages have other deeds it is one look a page.
pub fn next_run<D: Desk>(desk: &mut D, heap: u8, from: u32, next: u32, pages: u32) -> Option<u32>
    requires heap { heap < (D.standing desk.old).seat.profile.heaps }
    requires from { 1 ≤ from }
    requires read { from ≤ next }
    requires short { next < from + pages }
    requires can { CanCall (D.standing desk.old) AnyView }
    ensures found { FindsRun (large_directory heap) from next pages (D.standing desk.old) (D.standing desk.new) result }
    ensures home { D.home desk.new ≡ D.home desk.old }
{
    let directory = Directory {
        heap,
        kind: Kind::Large,
    };
    let end = desk.profile().pages + 1;
    let first = pass_held(desk, next, end, directory);
    let mut length = kept(next - from, first > next);
    for page in first..end {
        let usable = is_usable(desk, page, directory);
        length = longer(length, usable);
        if length == pages {
            return Some(page + 1 - pages);
        }
    }
    None
}

/// The first page of the lowest run of so many pages, from page `from` on, that were all read as usable for a large block of the heap.
///
/// Each lower run from there on has a page that was read as not usable, and None comes exactly where each run has one. A page is read once, by at
/// most six looks.
pub fn run_of_pages<D: Desk>(desk: &mut D, heap: u8, from: u32, pages: u32) -> Option<u32>
    requires heap { heap < (D.standing desk.old).seat.profile.heaps }
    requires from { 1 ≤ from }
    requires pages { 1 ≤ pages }
    requires can { CanCall (D.standing desk.old) AnyView }
    ensures found { FindsRun (large_directory heap) from from pages (D.standing desk.old) (D.standing desk.new) result }
    ensures home { D.home desk.new ≡ D.home desk.old }
{
    next_run(desk, heap, from, from, pages)
}
