//! The guards that an actor has up.
ghost use Rattle.std.specs.Prelude.{◌≤◌, vec_len, vec_capacity};

use pas_profile::{Guard, NoMemory};
use std::alloc::Global;

/// Room for a fixed number of guards, in the order in which they went up. Adding one takes no memory.
#[derive(Drop)]
pub struct GuardBook {
    guards: Vec<Guard>,
    bound: u32,
    ghost reserved: { bound ≤ vec_capacity guards },
    ghost within: { vec_len guards ≤ bound },
}

impl GuardBook {
    ghost use Rattle.std.specs.Prelude.{◌≡◌, ◌<◌, ◌++◌, ◌∷◌, [], IfOk, length, remove};
    ghost use Rattle.pas_guard.specs.Books.{guards_in, size_of_book};

    /// Room for so many guards, with none in it.
    pub fn try_new(alloc: Global, bound: u32) -> Result<GuardBook, NoMemory>
        ensures empty { IfOk result (λ book. guards_in book ≡ []) }
        ensures size { IfOk result (λ book. size_of_book book ≡ bound) }
    {
        match Vec::with_capacity(alloc, bound as usize) {
            Ok(guards) => Ok(GuardBook { guards, bound }),
            Err(_) => Err(NoMemory),
        }
    }

    /// The guards in the order in which they went up.
    pub fn guards(&self) -> &[Guard]
        ensures { result.now ≡ guards_in self.now }
    {
        &self.guards
    }

    /// Adds a guard at the end. There must be room for one.
    pub(crate) fn push(&mut self, guard: Guard)
        requires { length (guards_in self.old) < size_of_book self.old }
        ensures added { guards_in self.new ≡ guards_in self.old ++ guard ∷ [] }
        ensures size { size_of_book self.new ≡ size_of_book self.old }
    {
        self.guards.push_reserved(guard);
    }

    /// Takes the guard at this place out; those behind it move up.
    pub(crate) fn take_out(&mut self, place: usize)
        requires { place < length (guards_in self.old) }
        ensures taken { guards_in self.new ≡ remove (guards_in self.old) place }
        ensures size { size_of_book self.new ≡ size_of_book self.old }
    {
        self.guards.remove(place);
    }
}
