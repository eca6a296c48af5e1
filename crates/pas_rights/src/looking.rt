//! What the free words of a page show, and the hint of a page that may be empty.
ghost use Rattle.std.specs.Prelude.{◌≡◌, ◌<◌, ℕ, MatchBool};
ghost use Rattle.pas_bits.specs.Masks.{is_set};
ghost use Rattle.pas_profile.specs.{Directories.IsKind, Profiles.IsPage};
ghost use Rattle.pas_steps.specs.{Views.usable_by_kind, Desks.{AnyView, CanCall}};
ghost use Rattle.pas_rights.specs.Looks.{HasUsable, HasNoUsable, IsAllFree, HasUsed, Hinted};

use pas_bits::Mask4;
use pas_profile::{Directory, Kind, Word, slot_mask};
use pas_steps::Desk;

/// The grains of a page that blocks of its directory may cover.
#[tactic(auto, using(crate::proofs::Orders::full_mask))]
fn usable_mask(kind: Kind) -> Mask4
    requires { IsKind kind }
    ensures { (g : ℕ) → g < 256 → is_set result g ≡ usable_by_kind kind g }
{
    match kind {
        Kind::Class(class) => Mask4(slot_mask(class)),
        Kind::Bitfit | Kind::Shared | Kind::Large => Mask4([u64::MAX; 4]),
    }
}

/// Whether one of these free grains may be covered by blocks of the directory.
pub(crate) fn has_usable(free: &Mask4, directory: Directory) -> bool
    requires { IsKind directory.kind }
    ensures { MatchBool result (HasUsable directory free.now) (HasNoUsable directory free.now) }
{
    !free.both(&usable_mask(directory.kind)).is_empty()
}

/// Whether each grain of the page is free.
pub(crate) fn is_all_free(free: &Mask4) -> bool
    ensures { MatchBool result (IsAllFree free.now) (HasUsed free.now) }
{
    free.first_zero().is_none()
}

/// Hints the page, all of whose grains were read as free, where it is backed.
pub(crate) fn hint_backed<D: Desk>(desk: &mut D, page: u32)
    requires page { IsPage (D.standing desk.old).seat.profile page }
    requires can { CanCall (D.standing desk.old) AnyView }
    ensures hinted { Hinted page (D.standing desk.old) (D.standing desk.new) }
    ensures home { D.home desk.new ≡ D.home desk.old }
{
    if desk.look(Word::Backed(page)) == 1 {
        desk.hint(page);
    }
}
