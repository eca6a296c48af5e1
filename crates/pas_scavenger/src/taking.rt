//! The grains of a page are taken.
ghost use Rattle.std.specs.Prelude.{◌≡◌, ℕ};
ghost use Rattle.pas_bits.specs.Masks.{is_set};
ghost use Rattle.pas_profile.specs.Profiles.{IsPage};
ghost use Rattle.pas_rights.specs.{Looks.AreUsed, Takes.HasRight};
ghost use Rattle.pas_steps.specs.Desks.{CanCall};
ghost use Rattle.pas_scavenger.specs.Readings.{was_free, TakesUntilUsed};

use pas_bits::Mask4;
use pas_rights::Used;
use pas_steps::Desk;

/// Takes the free grains of the page word by word until a word wasn't all ones, and answers that word. The right is the actor's.
pub(crate) fn take_grains<D: Desk>(desk: &mut D, page: u32) -> Option<Used>
    requires page { IsPage (D.standing desk.old).seat.profile page }
    requires can { CanCall (D.standing desk.old) (HasRight page) }
    ensures takes { TakesUntilUsed page (D.standing desk.old) (D.standing desk.new) result }
    ensures home { D.home desk.new ≡ D.home desk.old }
{
    for word in 0..4u8 {
        let value = desk.take(page, word, u64::MAX);
        if value != u64::MAX {
            return Some(Used { word, value });
        }
    }
    None
}

/// The grains that were taken so: all of the words before that one, and the free ones of it.
pub(crate) fn grains_of(used: Option<Used>) -> Mask4
    requires { AreUsed used }
    ensures { (g : ℕ) → is_set result g ≡ was_free used g }
{
    match used {
        None => Mask4([u64::MAX; 4]),
        Some(last) => {
            let mut grains = Mask4::run(0, last.word as u16 * 64);
            grains.0[last.word as usize] = last.value;
            grains
        }
    }
}
