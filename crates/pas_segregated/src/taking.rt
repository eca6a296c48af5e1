//! The free slots of a page are taken.
ghost use Rattle.std.specs.Prelude.{◌≡◌};
ghost use Rattle.pas_profile.specs.{Classes.IsClass, Profiles.{IsPage, IsDirectoryOf}};
ghost use Rattle.pas_steps.specs.Desks.{CanCall};
ghost use Rattle.pas_search.specs.Serving.{MayServe};
ghost use Rattle.pas_segregated.specs.{Masks.AreStarts, Takes.{IsRest, TakesSlots}};

use crate::slots::{covered, whole_slots};
use pas_bits::Mask4;
use pas_profile::{Directory, slot_mask};
use pas_rights::{put_and_return, take};
use pas_steps::Desk;

/// The grains that were got and are of none of these slots.
fn rest_of(got: &Mask4, starts: &Mask4, class: u8) -> Mask4
    requires class { IsClass class }
    requires starts { AreStarts class starts.now }
    ensures { IsRest class got.now starts.now result }
{
    got.both(&covered(starts, class).complement())
}

/// Takes all free slots of the page, and answers their first grains: one take of each free word with all grains that slots cover. Grains of
/// incomplete slots are put back.
pub fn take_slots<D: Desk>(desk: &mut D, page: u32, directory: Directory, class: u8) -> Mask4
    requires page { IsPage (D.standing desk.old).seat.profile page }
    requires directory { IsDirectoryOf (D.standing desk.old).seat.profile directory }
    requires class { IsClass class }
    requires can { CanCall (D.standing desk.old) (MayServe page directory) }
    ensures takes { TakesSlots class page directory (D.standing desk.old) (D.standing desk.new) result }
    ensures home { D.home desk.new ≡ D.home desk.old }
{
    let got = take(desk, page, &Mask4(slot_mask(class)));
    let starts = whole_slots(&got, class);
    let rest = rest_of(&got, &starts, class);
    put_and_return(desk, page, directory, &rest);
    starts
}
