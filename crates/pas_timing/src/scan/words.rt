//! The search word by word, which that by rows is timed beside.
ghost use Rattle.std.specs.Prelude.{◌≡◌, ◌≤◌};
ghost use Rattle.pas_profile.specs.Profiles.{IsDirectoryOf};
ghost use Rattle.pas_steps.specs.Desks.{AnyView, CanCall};

use pas_bits::page_vector::lowest_page;
use pas_profile::Word;
use pas_scan::Looked;
use pas_steps::Desk;

/// The lowest page from `next` on whose eligible bit is read as 1: no word is read behind that of the page.
pub fn first_by_words<D: Desk>(desk: &mut D, looked: &mut Looked) -> Option<u32>
    requires directory { IsDirectoryOf (D.standing desk.old).seat.profile looked.old.directory }
    requires can { CanCall (D.standing desk.old) AnyView }
    ensures directory { looked.new.directory ≡ looked.old.directory }
    ensures seat { (D.standing desk.new).seat ≡ (D.standing desk.old).seat }
    ensures can { CanCall (D.standing desk.new) AnyView }
{
    let number = looked.directory.number();
    let next = looked.next;
    let end = desk.profile().pages / 64 + 1;
    for block in next / 64..end {
        let value = desk.look(Word::Eligible(number, block));
        if let Some(page) = lowest_page(value, block, next) {
            looked.next = page + 1;
            return Some(page);
        }
    }
    None
}
