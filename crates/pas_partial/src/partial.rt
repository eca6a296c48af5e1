//! What a request takes of a shared page.
use pas_bits::Mask4;
use pas_profile::classes::class_size;
use pas_profile::limits::GRAIN_BYTES;
use pas_search::{LeastRun, Placing, Run};

/// How many slots of a page are taken at once at most.
const MOST_SLOTS: u16 = 4;

/// Shared pages, as a class sees them.
#[derive(Clone, Copy, PartialEq, Eq)]
pub struct Partial {
    pub class: u8,
}

impl Placing for Partial {
    ghost use Rattle.pas_partial.specs.Rows.{lowest_rows, are_lowest_rows};

    ghost placement = { λ partial. lowest_rows partial.class };

    /// The lowest free slot, and the three after it as far as they are free without a break. Looks at most twice at the four words for each run of free
    /// grains, and once more.
    fn place(&self, free: &Mask4) -> Option<Run> {
        let grains = (class_size(self.class) / GRAIN_BYTES) as u16;
        let first = free.first_run(grains, grains)?;
        let end = free.run_end(first as u16);
        let slots = ((end - first as u16) / grains).min(MOST_SLOTS);
        Some(Run {
            first,
            grains: slots * grains,
        })
    }

    fn least_run(&self) -> Option<LeastRun> {
        let grains = (class_size(self.class) / GRAIN_BYTES) as u16;
        Some(LeastRun {
            grains,
            align: grains,
        })
    }

    ghost is_placement = { λ partial. are_lowest_rows partial.class };
}
