//! One search after another.
ghost use Rattle.std.specs.Prelude.{◌≡◌};
ghost use Rattle.pas_profile.specs.Profiles.{IsDirectoryOf};
ghost use Rattle.pas_steps.specs.Desks.{AnyView, CanCall};

use crate::scan::opened::DIRECTORY;
use crate::scan::words::first_by_words;
use pas_scan::{Looked, first_offered};
use pas_steps::Desk;

/// The first offered page of the directory, by rows or word by word.
fn search<D: Desk>(desk: &mut D, looked: &mut Looked, by_rows: bool) -> Option<u32>
    requires directory { IsDirectoryOf (D.standing desk.old).seat.profile looked.old.directory }
    requires can { CanCall (D.standing desk.old) AnyView }
    ensures directory { looked.new.directory ≡ looked.old.directory }
    ensures seat { (D.standing desk.new).seat ≡ (D.standing desk.old).seat }
    ensures can { CanCall (D.standing desk.new) AnyView }
{
    looked.next = 1;
    if by_rows {
        return first_offered(desk, looked);
    }
    first_by_words(desk, looked)
}

/// The sum of the pages that so many searches find.
pub fn search_often<D: Desk>(desk: &mut D, by_rows: bool, times: u32) -> u64
    requires directory { IsDirectoryOf (D.standing desk.old).seat.profile DIRECTORY }
    requires can { CanCall (D.standing desk.old) AnyView }
{
    let mut looked = Looked::begin(DIRECTORY);
    let mut sum = 0u64;
    for _round in 0..times {
        let found = search(desk, &mut looked, by_rows);
        sum = sum.wrapping_add(found.unwrap_or(0) as u64);
    }
    sum
}
