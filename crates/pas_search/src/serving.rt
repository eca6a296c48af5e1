//! How a back end serves a request from one page.
use crate::placing::LeastRun;
use pas_profile::Directory;
use pas_steps::Desk;

/// How a back end serves requests of one sort from a page of a directory.
pub trait Serving {
    ghost use Rattle.std.specs.Prelude.{ℕ, ◌≡◌, ◌≤◌, ◌<◌, true, None, Some, MatchOption, Bool};
    ghost use Rattle.pas_profile.specs.Profiles.{IsPage, IsDirectoryOf};
    ghost use Rattle.pas_steps.specs.{Desks.CanCall, Evidence.{Readings, IsAntitone}};
    ghost use Rattle.pas_search.specs.{Serving.{Rule, MayServe, ServesPage}, Passing.PassesBy};

    /// What it takes of a page.
    type Found: Copy;

    /// What it means: the directories that it serves from, when nothing fits, which grains and whether the right are kept, what its choice
    /// inside the page is, and how many events and steps it makes at most.
    ghost rule: { Self → Rule Self.Found };

    /// Serves a request from the page, whose right the actor just got, if the page's free grains fit.
    ///
    /// None where they don't: the grains were put back, and the page was left. A page whose deed the actor just made, all of whose grains are
    /// known as free, is served from.
    fn serve<D: Desk>(&self, desk: &mut D, page: u32, directory: Directory) -> Option<Self::Found>
        requires page { IsPage (D.standing desk.old).seat.profile page }
        requires directory { IsDirectoryOf (D.standing desk.old).seat.profile directory }
        requires suits { (rule self.now).suits directory }
        requires can { CanCall (D.standing desk.old) (MayServe page directory) }
        requires room { (rule self.now).events ≤ D.spare_of desk.old }
        ensures serves { ServesPage (rule self.now) page directory (D.standing desk.old) (D.standing desk.new) result }
        ensures home { D.home desk.new ≡ D.home desk.old };

    /// A run without which nothing fits. Where there is none, and some grain is free, the steps of `serve` are the looks at the page's free words, the same looks
    /// again, and its offer.
    fn least_run(&self, directory: Directory) -> Option<LeastRun>
        requires { (rule self.now).suits directory }
        ensures { MatchOption result (Unit {0}) (PassesBy (rule self.now) directory) }
    {
        let _ = directory;
        None
    }

    /// Where some readings show no fit, neither do readings of fewer free grains.
    ghost fewer: { (s : Self) → IsAntitone (rule s).no_fit };
}

/// What a search found: the page that serves the request, and what was taken of it.
#[derive(Clone, Copy)]
pub struct Served<F> {
    pub page: u32,
    pub found: F,
}
