//! A run of pages that is held is given as one block.
ghost use Rattle.std.specs.Prelude.{◌≡◌, ◌≤◌, ◌<◌, ◌+◌};
ghost use Rattle.pas_profile.specs.Profiles.{IsDirectoryOf};
ghost use Rattle.pas_steps.specs.Desks.{CanCall};
ghost use Rattle.pas_large.specs.{Claims.HasPages, Gives.{BacksPage, BacksRun, MayLeaveRun, LeavesRun, GivesRun}};

use pas_profile::limits::PAGE_GRAINS;
use pas_profile::{Block, Directory};
use pas_rights::{give, leave};
use pas_steps::Desk;

/// Backs this page of the run from `first` to below `end`. One step and at most one event.
fn back_page<D: Desk>(desk: &mut D, first: u32, end: u32, page: u32, directory: Directory)
    requires first { 1 ≤ first }
    requires low { first ≤ page }
    requires high { page < end }
    requires region { end ≤ (D.standing desk.old).seat.profile.pages + 1 }
    requires can { CanCall (D.standing desk.old) (HasPages directory first end) }
    requires room { 1 ≤ D.spare_of desk.old }
    ensures backs { BacksPage page (D.standing desk.old) (D.standing desk.new) }
    ensures home { D.home desk.new ≡ D.home desk.old }
{
    desk.back(page);
}

/// Backs the pages from `first` to below `end`, from the lowest up. One step and at most one event a page.
fn back_run<D: Desk>(desk: &mut D, first: u32, end: u32, directory: Directory)
    requires first { 1 ≤ first }
    requires span { first ≤ end }
    requires region { end ≤ (D.standing desk.old).seat.profile.pages + 1 }
    requires directory { IsDirectoryOf (D.standing desk.old).seat.profile directory }
    requires can { CanCall (D.standing desk.old) (HasPages directory first end) }
    requires room { end ≤ first + D.spare_of desk.old }
    ensures backs { BacksRun directory first end (D.standing desk.old) (D.standing desk.new) }
    ensures home { D.home desk.new ≡ D.home desk.old }
{
    for page in first..end {
        back_page(desk, first, end, page, directory);
    }
}

/// Leaves the pages from `first` to below `end`, from the lowest up.
fn leave_run<D: Desk>(desk: &mut D, first: u32, end: u32, directory: Directory)
    requires first { 1 ≤ first }
    requires span { first ≤ end }
    requires region { end ≤ (D.standing desk.old).seat.profile.pages + 1 }
    requires directory { IsDirectoryOf (D.standing desk.old).seat.profile directory }
    requires can { CanCall (D.standing desk.old) (MayLeaveRun directory first end) }
    ensures leaves { LeavesRun directory first end (D.standing desk.old) (D.standing desk.new) }
    ensures home { D.home desk.new ≡ D.home desk.old }
{
    for page in first..end {
        leave(desk, page, directory);
    }
}

/// Gives the run of so many pages from `first` on, which are held, as one block: the pages are backed from the lowest up, the block is given,
/// and then the pages are left.
pub fn give_run<D: Desk>(desk: &mut D, first: u32, pages: u32, directory: Directory) -> Block
    requires first { 1 ≤ first }
    requires pages { 1 ≤ pages }
    requires region { first + pages ≤ (D.standing desk.old).seat.profile.pages + 1 }
    requires directory { IsDirectoryOf (D.standing desk.old).seat.profile directory }
    requires can { CanCall (D.standing desk.old) (HasPages directory first (first + pages)) }
    requires room { pages + 1 ≤ D.spare_of desk.old }
    ensures gives { GivesRun directory first pages result (D.standing desk.old) (D.standing desk.new) }
    ensures home { D.home desk.new ≡ D.home desk.old }
{
    let end = first + pages;
    back_run(desk, first, end, directory);
    let block = give(desk, directory.heap, first, 0, pages * PAGE_GRAINS);
    leave_run(desk, first, end, directory);
    block
}
