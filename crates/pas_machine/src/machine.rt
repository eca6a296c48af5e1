//! The allocator's machine as a program.
ghost use Rattle.std.specs.Prelude.{◌≡◌, ◌+◌, ◌*◌, List, vec_len};
ghost use Rattle.pas_profile.specs.{Profiles.IsValid, declared.event.Event.Event as TheEvent};
ghost use Rattle.pas_machine.specs.Places.{Shows};

use crate::places::{Page, Place, blank_pages, blank_places, free_grains};
use pas_profile::{NoMemory, Profile};
use std::alloc::Global;

/// The allocator's machine: the deeds and the backed pages, the live blocks and how many were given at each address, and the greatest epoch
/// of an end on each page. It takes each event that may come next, and refuses any other one by its first reason.
///
/// Pages stand by their numbers, places and covered grains by the numbers of their grains in the region.
#[derive(Drop)]
pub struct Machine {
    pub(crate) profile: Profile,
    pub(crate) pages: Vec<Page>,
    pub(crate) places: Vec<Place>,
    /// Which grains live blocks have.
    pub(crate) covered: Vec<bool>,
    ghost valid: { IsValid profile },
    ghost pages_sized: { vec_len pages ≡ profile.pages + 1 },
    ghost places_sized: { vec_len places ≡ 256 * profile.pages + 256 },
    ghost covered_sized: { vec_len covered ≡ 256 * profile.pages + 256 },
    ghost shown: { ∥ ((es : List TheEvent) × Shows profile pages.items places.items covered.items es) ∥₁ },
}

impl Machine {
    ghost use Rattle.std.specs.Prelude.{IfOk, []};
    ghost use Rattle.pas_machine.specs.Machines.{profile_of, StandsFor};

    /// A machine at its opening, to which nothing happened yet.
    ///
    /// NoMemory where memory was wanting. Takes memory in proportion to the number of pages, and one pass over it.
    pub fn try_new(alloc: Global, profile: Profile) -> Result<Machine, NoMemory>
        requires { IsValid profile }
        ensures profile { IfOk result (λ machine. profile_of machine ≡ profile) }
        ensures opening { IfOk result (λ machine. StandsFor machine []) }
    {
        let grains = 256 * profile.pages as usize + 256;
        let pages = blank_pages(alloc, profile.pages as usize + 1)?;
        let places = blank_places(alloc, grains)?;
        let covered = free_grains(alloc, grains)?;
        Ok(Machine {
            profile,
            pages,
            places,
            covered,
        })
    }
}
