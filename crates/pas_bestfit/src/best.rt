//! The shortest free run that is long enough.
ghost use Rattle.std.specs.Prelude.{MatchBool};
ghost use Rattle.pas_bestfit.specs.Bests.{IsPreferred, best_fit, is_best_fit};

use pas_bits::{FreeRun, Mask4};
use pas_search::{Placing, Run};

/// How many grains a block has, 1 to 256.
#[derive(Clone, Copy, PartialEq, Eq)]
pub struct Best {
    pub grains: u16,
}

/// Whether the run has so many grains, and is better than the best one before it, if there is one.
fn is_preferred(run: FreeRun, grains: u16, best: Option<FreeRun>) -> bool
    ensures { MatchBool result (IsPreferred run grains best) (IsPreferred run grains best → ⊥) }
{
    grains <= run.length && best.is_none_or(|best| run.length < best.length)
}

impl Placing for Best {
    ghost placement = { λ best. best_fit best };

    /// The first grains of the shortest free run that is long enough, the lowest among equals. Asks for the next run once for each free run.
    fn place(&self, free: &Mask4) -> Option<Run> {
        let mut best = None;
        let mut from = 0;
        while let Some(run) = free.next_run(from) {
            if is_preferred(run, self.grains, best) {
                best = Some(run);
            }
            from = run.first as u16 + run.length;
        }
        Some(Run {
            first: best?.first,
            grains: self.grains,
        })
    }

    ghost is_placement = { λ best. is_best_fit best };
}
