//! The trace names that are taken.
ghost use Rattle.std.specs.Prelude.{◌≡◌, ◌<◌, ◌≤◌, ◌==◌, ℕ, true, not, if◌then◌else◌, OnOk, vec_len};
ghost use Rattle.pas_trace.specs.Told.{owner_in};

use std::alloc::{AllocError, Global};

/// The thread that made a name, the heap of its block, and the number of the phase in which it did. Thread 0 stands for a name that is free.
#[derive(Clone, Copy, PartialEq, Eq, Drop)]
pub struct Owner {
    pub thread: u8,
    pub heap: u8,
    pub phase: u32,
}

/// The owner of a name that nobody took.
const NOBODY: Owner = Owner {
    thread: 0,
    heap: 0,
    phase: 0,
};

/// The owners by trace name, up to the greatest name that was taken.
#[derive(Drop)]
pub struct Names {
    owners: Vec<Owner>,
}

impl Names {
    /// No name is taken.
    pub fn new(alloc: Global) -> Names
        ensures { (n : ℕ) → owner_in result n ≡ record { thread = 0; heap = 0; phase = 0 } }
    {
        Names {
            owners: Vec::new(alloc),
        }
    }

    /// The owner of the name.
    #[inline(always)]
    pub fn owner(&self, name: u32) -> Owner
        ensures { result ≡ owner_in self.now name }
    {
        match self.owners.get(name as usize) {
            Some(owner) => *owner,
            None => NOBODY,
        }
    }

    /// A number above each name that is taken.
    pub fn limit(&self) -> usize
        ensures { (n : ℕ) → not ((owner_in self.now n).thread == 0) ≡ true → n < result }
    {
        self.owners.len()
    }

    /// Makes room for the name, with nobody as the owner of the new ones.
    #[inline(always)]
    fn grow_to(&mut self, name: u32) -> Result<(), AllocError>
        ensures same { (n : ℕ) → owner_in self.new n ≡ owner_in self.old n }
        ensures room { OnOk result (name < vec_len self.new.owners) }
    {
        while self.owners.len() <= name as usize {
            self.owners.reserve(1)?;
            self.owners.push_reserved(NOBODY);
        }
        Ok(())
    }

    /// Gives the name to the owner. Amortized constant time over growing names.
    #[inline(always)]
    pub fn give(&mut self, name: u32, owner: Owner) -> Result<(), AllocError>
        ensures { OnOk result ((n : ℕ) → owner_in self.new n ≡ (if n == name then owner else owner_in self.old n)) }
    {
        self.grow_to(name)?;
        self.owners[name as usize] = owner;
        Ok(())
    }
}
