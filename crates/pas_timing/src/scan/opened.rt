//! A region of which the last page alone is offered.
ghost use Rattle.std.specs.Prelude.{IfOk};
ghost use Rattle.pas_profile.specs.Profiles.{IsDirectoryOf};
ghost use Rattle.pas_steps.specs.Desks.{AnyView, CanCall};
ghost use Rattle.pas_plain.specs.Seats.{standing_of};

use pas_plain::{PlainDesk, alone};
use pas_profile::{Directory, Kind, NoMemory, Profile};
use pas_trials::visit;
use std::alloc::Global;

/// The pages of the region.
pub const PAGES: u32 = 4096;

/// The directory that is searched.
pub const DIRECTORY: Directory = Directory {
    heap: 0,
    kind: Kind::Class(0),
};

const PROFILE: Profile = Profile {
    pages: PAGES,
    threads: 1,
    age: 2,
    heaps: 1,
    shared: 0,
    classes: 16,
};

/// A desk at such a region.
pub fn last_offered(alloc: Global) -> Result<PlainDesk, NoMemory>
    ensures can { IfOk result (λ desk. CanCall (standing_of desk) AnyView) }
    ensures directory { IfOk result (λ desk. IsDirectoryOf (standing_of desk).seat.profile DIRECTORY) }
{
    let mut desk = alone(alloc, PROFILE, 1)?;
    visit(&mut desk, PAGES, DIRECTORY, 0, true);
    Ok(desk)
}
