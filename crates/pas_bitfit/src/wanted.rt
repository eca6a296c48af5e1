//! The lowest run of free grains that fits.
use pas_bits::{Mask4, all_zero};
use pas_search::{LeastRun, Placing, Run};

/// The run of free grains that a request wants: so many, 1 to 256, of which the first is a multiple of the alignment, 1 to 256 grains.
#[derive(Clone, Copy, PartialEq, Eq)]
pub struct Wanted {
    pub grains: u16,
    pub align: u16,
}

impl Placing for Wanted {
    ghost use Rattle.pas_bitfit.specs.Runs.{lowest_run, is_lowest_run};

    ghost placement = { λ wanted. lowest_run wanted };

    /// The lowest run that fits. Looks at most twice at the four words for each run of free grains, and once where none is free.
    fn place(&self, free: &Mask4) -> Option<Run> {
        if all_zero(&free.0) {
            return None;
        }
        let first = free.first_run(self.grains, self.align)?;
        Some(Run {
            first,
            grains: self.grains,
        })
    }

    fn least_run(&self) -> Option<LeastRun> {
        Some(LeastRun {
            grains: self.grains,
            align: self.align,
        })
    }

    ghost is_placement = { λ wanted. is_lowest_run wanted };
}
