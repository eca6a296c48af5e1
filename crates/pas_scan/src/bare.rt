//! The search for a page without a deed.
ghost use Rattle.std.specs.Prelude.{◌≡◌, ◌≤◌};
ghost use Rattle.pas_steps.specs.Desks.{AnyView, CanCall};
ghost use Rattle.pas_scan.specs.Scan.{FindsBare};

use crate::passed::pass_deeds;
use pas_profile::Word;
use pas_steps::Desk;

/// The lowest page from `from` on whose deed word was read as 0, each page before it from `from` on having been read as not 0.
///
/// None exactly where each deed word from that of `from` on was read, once, as not 0.
pub fn first_without_deed<D: Desk>(desk: &mut D, from: u32) -> Option<u32>
    requires from { 1 ≤ from }
    requires can { CanCall (D.standing desk.old) AnyView }
    ensures found { FindsBare from (D.standing desk.old) (D.standing desk.new) result }
    ensures home { D.home desk.new ≡ D.home desk.old }
{
    let end = desk.profile().pages + 1;
    let first = pass_deeds(desk, from, end, 0);
    for page in first..end {
        let deed = desk.look(Word::Deed(page));
        if deed == 0 {
            return Some(page);
        }
    }
    None
}
