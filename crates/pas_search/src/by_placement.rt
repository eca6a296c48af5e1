//! A page serves a request by a run of its free grains.
use crate::placing::{LeastRun, Placing, Run};
use crate::serving::Serving;
use pas_bits::Mask4;
use pas_profile::Directory;
use pas_rights::{leave, read, take};
use pas_steps::Desk;

/// Pages that serve by the runs that are placed so.
#[derive(Clone, Copy)]
pub struct ByPlacement<P>(pub P);

impl<P: Placing> Serving for ByPlacement<P> {
    ghost use Rattle.pas_search.specs.Placements.{placing};

    type Found = Run;

    ghost rule = { λ s. placing (P.placement s.0) };

    /// Takes the run that is chosen, if one fits, and backs the page. Its right is kept, for the caller to leave. None where nothing fits: the page was
    /// left. At most 15 steps.
    fn serve<D: Desk>(&self, desk: &mut D, page: u32, directory: Directory) -> Option<Run> {
        let free = read(desk, page);
        let Some(run) = self.0.place(&free) else {
            leave(desk, page, directory);
            return None;
        };
        take(desk, page, &Mask4::run(run.first, run.grains));
        desk.back(page);
        Some(run)
    }

    fn least_run(&self, _directory: Directory) -> Option<LeastRun> {
        self.0.least_run()
    }

    ghost fewer = { λ s. (P.is_placement s.0).fewer };
}
