//! A block is allocated at the best place.
ghost use Rattle.std.specs.Prelude.{◌≡◌, ◌≤◌, ◌+◌};
ghost use Rattle.pas_profile.specs.Profiles.{IsDirectoryOf};
ghost use Rattle.pas_steps.specs.{Clear.HasNothing, Desks.CanCall};
ghost use Rattle.pas_search.specs.Searches.{SearchRoom};
ghost use Rattle.pas_bestfit.specs.Allocates.{bestfit_directory, Allocates};

use crate::best::Best;
use pas_profile::limits::GRAIN_BYTES;
use pas_profile::{Block, Directory, Kind, NoRoom};
use pas_search::ByPlacement;
use pas_steps::Desk;

/// A block of the heap for so many bytes, 0 to 4,096: at the start of the shortest free run that holds them, the lowest among equals, of the lowest
/// offered bit-fit page of the heap that has one, or of the lowest page without a deed. Nothing is kept.
///
/// `NoSpace` and `Held` come as the search of the heap's bit-fit pages gives them. At most two events where the deed of each page is known, and
/// three otherwise. The search of `n` pages takes at most `(18 + w) n + 81` steps and 66 more for each 64 of them, where `w` is the lesser of 8
/// and `n / 64 + 1`, and the block and the leave 13 more.
pub fn alloc<D: Desk>(desk: &mut D, heap: u8, size: u32) -> Result<Block, NoRoom>
    requires directory { IsDirectoryOf (D.standing desk.old).seat.profile (bestfit_directory heap) }
    requires size { size ≤ 4096 }
    requires can { CanCall (D.standing desk.old) (SearchRoom (D.standing desk.old).seat.profile (bestfit_directory heap) 2 (D.spare_of desk.old)) }
    ensures allocates { Allocates heap size D.tells (D.standing desk.old) (D.standing desk.new) result }
    ensures rests { CanCall (D.standing desk.old) HasNothing → CanCall (D.standing desk.new) HasNothing }
    ensures room { D.spare_of desk.old ≤ D.spare_of desk.new + 3 }
    ensures home { D.home desk.new ≡ D.home desk.old }
{
    let directory = Directory {
        heap,
        kind: Kind::Bitfit,
    };
    let grains = size.div_ceil(GRAIN_BYTES).max(1) as u16;
    pas_search::alloc(&ByPlacement(Best { grains }), desk, directory)
}
