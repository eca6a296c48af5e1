//! Why a large request finds no room.
ghost use Rattle.std.specs.Prelude.{◌≡◌};
ghost use Rattle.pas_profile.specs.Profiles.{IsDirectoryOf};
ghost use Rattle.pas_steps.specs.Desks.{AnyView, CanCall};
ghost use Rattle.pas_large.specs.Refusals.{MarksOffered, Refuses};

use pas_profile::{Directory, NoRoom, Word};
use pas_scan::{Looked, verdict};
use pas_steps::Desk;

/// Marks the pages of the directory that are offered, and no others: each eligible word is read, and none twice.
fn mark_offered<D: Desk>(desk: &mut D, looked: &mut Looked)
    requires directory { IsDirectoryOf (D.standing desk.old).seat.profile looked.old.directory }
    requires can { CanCall (D.standing desk.old) AnyView }
    ensures directory { looked.new.directory ≡ looked.old.directory }
    ensures marks { MarksOffered looked.old.directory looked.new.unfit (D.standing desk.old) (D.standing desk.new) }
    ensures home { D.home desk.new ≡ D.home desk.old }
{
    let number = looked.directory.number();
    let end = desk.profile().pages / 64 + 1;
    for block in 0..end {
        let value = desk.look(Word::Eligible(number, block));
        looked.unfit[block as usize] = value;
    }
}

/// Why there is no room for a request that found no run: each eligible word is read once, and then the parked bits of the pages of the directory
/// that weren't read as offered. `Held` has the lowest one whose parked bit is 0, and `NoSpace` comes where there is none.
pub(crate) fn refuse<D: Desk>(desk: &mut D, directory: Directory) -> NoRoom
    requires directory { IsDirectoryOf (D.standing desk.old).seat.profile directory }
    requires can { CanCall (D.standing desk.old) AnyView }
    ensures refuses { Refuses directory (D.standing desk.old) (D.standing desk.new) result }
    ensures home { D.home desk.new ≡ D.home desk.old }
{
    let mut looked = Looked::begin(directory);
    mark_offered(desk, &mut looked);
    verdict(desk, &looked)
}
