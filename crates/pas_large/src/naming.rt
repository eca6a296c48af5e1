//! The run that the door names.
ghost use Rattle.std.specs.Prelude.{◌≡◌, ◌≤◌, ◌<◌, ◌+◌, ◌↔◌, IsTrue, ℕ, Option};
ghost use Rattle.pas_scan.specs.Runs.{large_directory};
ghost use Rattle.pas_steps.specs.Desks.{CanCall};
ghost use Rattle.pas_large.specs.{Finds.FindRoom, Named.ClaimsNamed};

use crate::door::Door;
use crate::running::claim_run;
use pas_profile::{Directory, Kind};
use pas_steps::Desk;

/// Whether a region of so many pages has the run of so many pages, one at least, from this page on.
fn has_run(region: u32, first: u32, pages: u32) -> bool
    requires { 1 ≤ pages }
    ensures { IsTrue result ↔ ((1 ≤ first) × (first + pages ≤ region + 1)) }
{
    1 <= first && first <= region && pages - 1 <= region - first
}

/// Asks the door for a run of so many pages and claims it, without a deed: its pages are held then.
///
/// None where the door names no run of the region, or where a page of it isn't read as one of the heap's large pages, is lost or isn't whole: what was
/// got is put back and left then. What the door names is a hint, whatever it is.
pub(crate) fn claim_named<D: Desk, O: Door>(
    desk: &mut D,
    door: &mut O,
    heap: u8,
    pages: u32,
) -> Option<u32>
    requires heap { heap < (D.standing desk.old).seat.profile.heaps }
    requires pages { 1 ≤ pages }
    requires can { CanCall (D.standing desk.old) (FindRoom (D.standing desk.old).seat.profile (large_directory heap) 1 (D.spare_of desk.old)) }
    ensures names { (found : Option ℕ) × O.answers door.old door.new heap pages found × ClaimsNamed (large_directory heap) pages found (D.standing desk.old) (D.standing desk.new) result }
    ensures home { D.home desk.new ≡ D.home desk.old }
{
    let directory = Directory {
        heap,
        kind: Kind::Large,
    };
    let first = door.find(heap, pages)?;
    if !has_run(desk.profile().pages, first, pages) {
        return None;
    }
    match claim_run(desk, first, first + pages, directory, false) {
        None => Some(first),
        Some(_) => None,
    }
}
