//! Best fit over the region: a block stands at the shortest free run that is long enough of all offered pages.
ghost use Rattle.std.specs.Prelude.{◌≡◌, ◌≤◌};
ghost use Rattle.pas_profile.specs.Profiles.{IsDirectoryOf};
ghost use Rattle.pas_steps.specs.Desks.{CanCall};
ghost use Rattle.pas_search.specs.Ranks.{RankRoom};
ghost use Rattle.pas_bestfit.specs.{Allocates.bestfit_directory, Region.AllocatesInRegion};

use crate::best::Best;
use pas_bits::Mask4;
use pas_profile::limits::GRAIN_BYTES;
use pas_profile::{Block, Directory, Kind, NoRoom};
use pas_search::{ByPlacement, Placing, Ranking, alloc_best};
use pas_steps::Desk;

impl Ranking for Best {
    ghost use Rattle.std.specs.Prelude.{◌≤◌};
    ghost use Rattle.pas_bestfit.specs.Region.{by_length, of_grains};

    ghost asked = { λ best. (1 ≤ best.grains) × (best.grains ≤ 256) };

    ghost ranks = { λ best. by_length best.grains };

    /// The length of the page's shortest free run that is long enough.
    fn rank(&self, free: &Mask4) -> Option<u32> {
        let first = self.place(free)?.first as u16;
        let end = free.run_end(first);
        Some((end - first) as u32)
    }

    ghost alike = { λ best. of_grains best.grains };
}

/// A block of the heap for so many bytes, 0 to 4,096: at the start of the shortest free run that holds them of all offered bit-fit pages of the heap. Among
/// equals it is the one on the lowest page, and the lowest there. Nothing is kept.
///
/// Each page is looked at first. Where no offered page has a run that is long enough, or another actor is first at the best page, the block is the one that
/// `alloc` gives, with its refusals, its events and its steps. On `n` pages at most `(4 + w) n + 29` steps and one more for each 64 of them, where `w` is the
/// lesser of 8 and `n / 64 + 1`, and where `alloc` follows, those of `alloc` besides.
pub fn alloc_in_region<D: Desk>(desk: &mut D, heap: u8, size: u32) -> Result<Block, NoRoom>
    requires directory { IsDirectoryOf (D.standing desk.old).seat.profile (bestfit_directory heap) }
    requires size { size ≤ 4096 }
    requires can { CanCall (D.standing desk.old) (RankRoom (D.standing desk.old).seat.profile (bestfit_directory heap) 2 (D.spare_of desk.old)) }
    ensures allocates { AllocatesInRegion heap size D.tells (D.standing desk.old) (D.standing desk.new) result }
    ensures home { D.home desk.new ≡ D.home desk.old }
{
    let directory = Directory {
        heap,
        kind: Kind::Bitfit,
    };
    let best = Best {
        grains: size.div_ceil(GRAIN_BYTES).max(1) as u16,
    };
    alloc_best(&ByPlacement(best), &best, desk, directory)
}
