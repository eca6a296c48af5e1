//! The search for an offered page.
ghost use Rattle.std.specs.Prelude.{◌≡◌, ◌≤◌};
ghost use Rattle.pas_profile.specs.Profiles.{IsDirectoryOf};
ghost use Rattle.pas_steps.specs.Desks.{AnyView, CanCall};
ghost use Rattle.pas_scan.specs.Scan.{FindsOffered};

use crate::looked::Looked;
use crate::row::{lowest_in_row, read_row};
use pas_bits::LANES;
use pas_steps::Desk;

/// The lowest page from `next` on whose eligible bit was read as 1. The search goes on after it.
///
/// None exactly where each eligible word from that of `next` on was read, once, and shows no page from `next` on. The words are read by rows of
/// eight, and none behind the row of the page.
pub fn first_offered<D: Desk>(desk: &mut D, looked: &mut Looked) -> Option<u32>
    requires directory { IsDirectoryOf (D.standing desk.old).seat.profile looked.old.directory }
    requires next { 1 ≤ looked.old.next }
    requires can { CanCall (D.standing desk.old) AnyView }
    ensures directory { looked.new.directory ≡ looked.old.directory }
    ensures unfit { looked.new.unfit ≡ looked.old.unfit }
    ensures found { FindsOffered looked.old.directory looked.old.next (D.standing desk.old) (D.standing desk.new) looked.new.next result }
    ensures home { D.home desk.new ≡ D.home desk.old }
{
    let directory = looked.directory;
    let next = looked.next;
    let end = desk.profile().pages / 64 + 1;
    let row_words = LANES as u32;
    let mut block = next / 64;
    while block < end {
        let row_end = (block / row_words * row_words + row_words).min(end);
        let row = read_row(desk, directory, block, row_end);
        if let Some(page) = lowest_in_row(&row, block, next) {
            looked.next = page + 1;
            return Some(page);
        }
        block = row_end;
    }
    None
}
