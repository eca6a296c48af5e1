//! A run that is held is guarded.
ghost use Rattle.std.specs.Prelude.{◌≡◌, ◌≤◌, ◌+◌};
ghost use Rattle.pas_profile.specs.Profiles.{IsDirectoryOf};
ghost use Rattle.pas_steps.specs.Desks.{CanCall};
ghost use Rattle.pas_large.specs.Claims.{HasPages};
ghost use Rattle.pas_guard.specs.Guards.{GuardsRun};

use pas_large::give_run;
use pas_profile::{Block, Directory};
use pas_rights::leave;
use pas_steps::Desk;

/// Gives the pages between the first and the last of a run of `pages + 2` pages, which is held, as one block, and leaves the outer ones, whose grains
/// stay held.
pub(crate) fn guard_run<D: Desk>(
    desk: &mut D,
    first: u32,
    pages: u32,
    directory: Directory,
) -> Block
    requires first { 1 ≤ first }
    requires pages { 1 ≤ pages }
    requires region { first + (pages + 2) ≤ (D.standing desk.old).seat.profile.pages + 1 }
    requires directory { IsDirectoryOf (D.standing desk.old).seat.profile directory }
    requires can { CanCall (D.standing desk.old) (HasPages directory first (first + (pages + 2))) }
    requires room { pages + 1 ≤ D.spare_of desk.old }
    ensures guards { GuardsRun directory first pages result (D.standing desk.old) (D.standing desk.new) }
    ensures home { D.home desk.new ≡ D.home desk.old }
{
    let block = give_run(desk, first + 1, pages, directory);
    leave(desk, first, directory);
    leave(desk, first + pages + 1, directory);
    block
}
