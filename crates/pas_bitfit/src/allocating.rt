//! A bit-fit block is allocated.
ghost use Rattle.std.specs.Prelude.{◌≡◌, ◌≤◌, ◌+◌, ◌%◌};
ghost use Rattle.pas_profile.specs.{Classes.IsAlignment, Profiles.IsDirectoryOf};
ghost use Rattle.pas_steps.specs.{Clear.HasNothing, Desks.CanCall};
ghost use Rattle.pas_search.specs.Searches.{SearchRoom};
ghost use Rattle.pas_bitfit.specs.Allocates.{bitfit_directory, Allocates};

use crate::wanted::Wanted;
use pas_profile::limits::GRAIN_BYTES;
use pas_profile::{Block, Directory, Kind, NoRoom};
use pas_search::ByPlacement;
use pas_steps::Desk;

/// A block of so many bytes at a multiple of the alignment: at the lowest place of the lowest offered bit-fit page of the heap where it fits,
/// or of the lowest page without a deed. Just its grains are taken, the block is given, and then the page is left. Nothing is kept.
///
/// The room is a multiple of 16, from 16 to 2,048. `NoSpace` and `Held` come as the search of the heap's bit-fit pages gives them. At most two
/// events where the deed of each page is known, and three otherwise. A page's turn takes at most 15 steps, the search of
/// `n` pages at most `(18 + w) n + 81` and 66 more for each 64 of them, where `w` is the lesser of 8 and `n / 64 + 1`, and the block and the
/// leave 13 more. A page none of whose grains is free is left with no search for a run.
pub fn alloc<D: Desk>(desk: &mut D, heap: u8, room: u32, align: u32) -> Result<Block, NoRoom>
    requires directory { IsDirectoryOf (D.standing desk.old).seat.profile (bitfit_directory heap) }
    requires room { (16 ≤ room) × (room ≤ 2048) × (room % 16 ≡ 0) }
    requires align { IsAlignment align }
    requires can { CanCall (D.standing desk.old) (SearchRoom (D.standing desk.old).seat.profile (bitfit_directory heap) 2 (D.spare_of desk.old)) }
    ensures allocates { Allocates heap room align D.tells (D.standing desk.old) (D.standing desk.new) result }
    ensures rests { CanCall (D.standing desk.old) HasNothing → CanCall (D.standing desk.new) HasNothing }
    ensures room { D.spare_of desk.old ≤ D.spare_of desk.new + 3 }
    ensures home { D.home desk.new ≡ D.home desk.old }
{
    let directory = Directory {
        heap,
        kind: Kind::Bitfit,
    };
    let wanted = Wanted {
        grains: (room / GRAIN_BYTES) as u16,
        align: (align / GRAIN_BYTES) as u16,
    };
    pas_search::alloc(&ByPlacement(wanted), desk, directory)
}
