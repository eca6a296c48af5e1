//! What the keeper does in a storm.
ghost use Rattle.std.specs.Prelude.{◌≡◌, ◌≤◌, []};
ghost use Rattle.pas_profile.specs.Profiles.{IsPage};
ghost use Rattle.pas_steps.specs.Desks.{AnyView, CanCall};
ghost use Rattle.pas_guard.specs.Books.{FitsBook};
ghost use Rattle.pas_tests.specs.Kept.{MayKeep, Looked};

use pas_answers::{lower_all, try_guarded};
use pas_guard::GuardBook;
use pas_profile::{Guard, Word};
use pas_records::Records;
use pas_steps::Desk;

/// How many bytes each guarded request asks for: one page.
const PAGE: u32 = 4096;

/// Whether the page is an outer page of one of the guards.
fn is_outer(guards: &[Guard], page: u32) -> bool {
    for guard in guards {
        if guard.low == page || guard.high == page {
            return true;
        }
    }
    false
}

/// The backed word of the page where it is asked for, and 0 otherwise.
fn look_where<D: Desk>(desk: &mut D, page: u32, asked: bool) -> u64
    requires page { IsPage (D.standing desk.old).seat.profile page }
    requires can { CanCall (D.standing desk.old) AnyView }
    ensures looks { Looked (D.standing desk.old) (D.standing desk.new) }
    ensures home { D.home desk.new ≡ D.home desk.old }
{
    if !asked {
        return 0;
    }
    desk.look(Word::Backed(page))
}

/// Whether no outer page of a guard that is up is backed, by a look at the backed word of each.
fn are_bare<D: Desk>(desk: &mut D, guards: &[Guard]) -> bool
    requires can { CanCall (D.standing desk.old) AnyView }
    ensures looks { Looked (D.standing desk.old) (D.standing desk.new) }
    ensures home { D.home desk.new ≡ D.home desk.old }
{
    let mut backed = 0;
    for before in 0..desk.profile().pages {
        backed = backed | look_where(desk, before + 1, is_outer(guards, before + 1));
    }
    backed == 0
}

/// The keeper tries so many requests for a page of heap 0, and looks at the outer pages of its guards after each. Then
/// it lowers all. Whether none was backed.
pub fn keep<D: Desk>(desk: &mut D, book: &mut GuardBook, rounds: u32, out: &mut Records) -> bool
    requires pages { 1 ≤ (D.standing desk.old).seat.profile.pages }
    requires heaps { 1 ≤ (D.standing desk.old).seat.profile.heaps }
    requires can { CanCall (D.standing desk.old) (MayKeep (D.standing desk.old).seat.profile book.old out.old 0 rounds (D.spare_of desk.old)) }
    ensures can { CanCall (D.standing desk.new) (FitsBook (D.standing desk.new).seat.profile []) }
    ensures seat { (D.standing desk.new).seat ≡ (D.standing desk.old).seat }
    ensures home { D.home desk.new ≡ D.home desk.old }
{
    let mut bare = true;
    for round in 0..rounds {
        try_guarded(desk, book, round, 0, PAGE, 16, out);
        let here = are_bare(desk, book.guards());
        bare = bare & here;
    }
    lower_all(desk, book, out);
    bare
}
