//! The pages of a run are claimed, one after the other, and left.
ghost use Rattle.std.specs.Prelude.{◌≡◌, ◌≤◌, ◌<◌, ◌+◌};
ghost use Rattle.pas_profile.specs.Profiles.{IsDirectoryOf};
ghost use Rattle.pas_steps.specs.Desks.{CanCall};
ghost use Rattle.pas_large.specs.{Pages.ClaimsPage, Claims.{MayClaimPages, HasRunRoom, ClaimsPages, ClaimsRun, HasPages, Releases}};

use crate::claiming::{Claimed, claim_page};
use pas_bits::Mask4;
use pas_profile::Directory;
use pas_rights::put_and_leave;
use pas_steps::Desk;

/// Claims the lowest of the pages from `first` to below `end`, none of whose rights is the actor's.
fn claim_lowest<D: Desk>(
    desk: &mut D,
    first: u32,
    end: u32,
    directory: Directory,
    deeds: bool,
) -> Claimed
    requires first { 1 ≤ first }
    requires some { first < end }
    requires region { end ≤ (D.standing desk.old).seat.profile.pages + 1 }
    requires directory { IsDirectoryOf (D.standing desk.old).seat.profile directory }
    requires can { CanCall (D.standing desk.old) (MayClaimPages directory first end) }
    requires room { 1 ≤ D.spare_of desk.old }
    ensures claims { ClaimsPage deeds directory first (D.standing desk.old) (D.standing desk.new) result }
    ensures home { D.home desk.new ≡ D.home desk.old }
{
    claim_page(desk, first, directory, deeds)
}

/// Claims the pages from `first` to below `end`, from the lowest up, until one is lost or broken, and answers the page where it stopped:
/// `end` where all were claimed. The pages below are held whole, with their rights. Deeds are made only where `deeds` is true.
fn claim_pages<D: Desk>(
    desk: &mut D,
    first: u32,
    end: u32,
    directory: Directory,
    deeds: bool,
) -> u32
    requires first { 1 ≤ first }
    requires span { first ≤ end }
    requires region { end ≤ (D.standing desk.old).seat.profile.pages + 1 }
    requires directory { IsDirectoryOf (D.standing desk.old).seat.profile directory }
    requires can { CanCall (D.standing desk.old) (HasRunRoom (D.standing desk.old).seat.profile directory first end 1 (D.spare_of desk.old)) }
    ensures claims { ClaimsPages deeds directory first end (D.standing desk.old) (D.standing desk.new) result }
    ensures home { D.home desk.new ≡ D.home desk.old }
{
    for page in first..end {
        match claim_lowest(desk, page, end, directory, deeds) {
            Claimed::Whole => {}
            Claimed::Lost => return page,
            Claimed::Broken => return page,
        }
    }
    end
}

/// Puts all grains of the pages from `first` to below `end` back and leaves them, from the lowest up.
pub fn release<D: Desk>(desk: &mut D, first: u32, end: u32, directory: Directory)
    requires first { 1 ≤ first }
    requires span { first ≤ end }
    requires region { end ≤ (D.standing desk.old).seat.profile.pages + 1 }
    requires directory { IsDirectoryOf (D.standing desk.old).seat.profile directory }
    requires can { CanCall (D.standing desk.old) (HasPages directory first end) }
    ensures releases { Releases directory first end (D.standing desk.old) (D.standing desk.new) }
    ensures home { D.home desk.new ≡ D.home desk.old }
{
    for page in first..end {
        put_and_leave(desk, page, directory, &Mask4([u64::MAX; 4]));
    }
}

/// Claims the pages from `first` to below `end` whole, from the lowest up.
///
/// None where all are held. Otherwise the page that was lost or broken: all that was got before is put back and left then. Deeds are made only where
/// `deeds` is true; otherwise a page that has another deed or none is lost.
pub fn claim_run<D: Desk>(
    desk: &mut D,
    first: u32,
    end: u32,
    directory: Directory,
    deeds: bool,
) -> Option<u32>
    requires first { 1 ≤ first }
    requires span { first ≤ end }
    requires region { end ≤ (D.standing desk.old).seat.profile.pages + 1 }
    requires directory { IsDirectoryOf (D.standing desk.old).seat.profile directory }
    requires can { CanCall (D.standing desk.old) (HasRunRoom (D.standing desk.old).seat.profile directory first end 1 (D.spare_of desk.old)) }
    ensures claims { ClaimsRun deeds directory first end (D.standing desk.old) (D.standing desk.new) result }
    ensures home { D.home desk.new ≡ D.home desk.old }
{
    let stop = claim_pages(desk, first, end, directory, deeds);
    if stop == end {
        return None;
    }
    release(desk, first, stop, directory);
    Some(stop)
}
