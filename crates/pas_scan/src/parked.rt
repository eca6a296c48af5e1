//! Why a search found no page.
ghost use Rattle.std.specs.Prelude.{ℕ, ◌≡◌, ◌≤◌, ◌<◌, ◌/◌, ◌+◌, ◌*◌};
ghost use Rattle.pas_profile.specs.Profiles.{IsDirectoryOf};
ghost use Rattle.pas_steps.specs.Desks.{AnyView, CanCall};
ghost use Rattle.pas_scan.specs.Scan.{FindsMembers, Judges};

use crate::looked::Looked;
use crate::passed::pass_deeds;
use pas_bits::page_vector::{lowest_page, with_page};
use pas_profile::{NoRoom, Word, deed_word};
use pas_steps::Desk;

/// The pages of word `block` of a page vector that are of the directory and aren't unfit, as that word: the deed word of each of its
/// pages is looked at.
fn members<D: Desk>(desk: &mut D, looked: &Looked, block: u32) -> u64
    requires directory { IsDirectoryOf (D.standing desk.old).seat.profile looked.now.directory }
    requires block { block ≤ (D.standing desk.old).seat.profile.pages / 64 }
    requires can { CanCall (D.standing desk.old) AnyView }
    ensures members { FindsMembers looked.now.unfit looked.now.directory block (D.standing desk.old) (D.standing desk.new) result }
    ensures home { D.home desk.new ≡ D.home desk.old }
{
    let first = (block * 64).max(1);
    let end = (block * 64 + 64).min(desk.profile().pages + 1);
    let start = pass_deeds(desk, first, end, deed_word(looked.directory));
    let mut members = 0;
    for page in start..end {
        let deed = desk.look(Word::Deed(page));
        if looked.is_open(page, deed) {
            members = with_page(members, page);
        }
    }
    members
}

/// Why there is no room for a search that found no page.
///
/// Of the pages that are of the directory and aren't unfit the parked bits are read, each once and the lowest page first. `Held` exactly where
/// one was read as 0, with the lowest such page. `NoSpace` exactly where each was read as 1.
pub fn verdict<D: Desk>(desk: &mut D, looked: &Looked) -> NoRoom
    requires directory { IsDirectoryOf (D.standing desk.old).seat.profile looked.now.directory }
    requires can { CanCall (D.standing desk.old) AnyView }
    ensures judges { Judges looked.now.unfit looked.now.directory (D.standing desk.old) (D.standing desk.new) result }
    ensures home { D.home desk.new ≡ D.home desk.old }
{
    let end = desk.profile().pages / 64 + 1;
    for block in 0..end {
        let members = members(desk, looked, block);
        let parked = desk.look(Word::Parked(block));
        if let Some(page) = lowest_page(members & !parked, block, 1) {
            return NoRoom::Held(page);
        }
    }
    NoRoom::NoSpace
}
