//! The operations of a trace, one after the other.
ghost use Rattle.pas_generate.specs.Operations.{state_of};

use crate::draws::Draws;
use crate::operation::{Allocated, Operation};
use crate::requests::draw_request;
use pas_profile::NoMemory;
use std::alloc::Global;

/// What the generator keeps between two operations.
#[derive(Drop)]
pub(crate) struct Generator {
    draws: Draws,
    unfreed: Vec<Allocated>,
    next_name: u32,
    phase: u32,
    threads: u8,
}

impl Generator {
    ghost use Rattle.std.specs.Prelude.{◌≡◌, ◌+◌, ◌<◌, ◌≤◌, ◌||◌, IfOk, length, nat_eq, nat_lt, vec_capacity, vec_len};
    ghost use Rattle.pas_generate.specs.Operations.{Stands, after_allocation, after_drawn, after_free, after_operation, allocation, drawn_operation};
    ghost use Rattle.pas_generate.specs.Operations.{first_state, free_of, operation_at};

    /// A generator of at most so many operations.
    pub(crate) fn try_new(
        alloc: Global,
        seed: u64,
        ops: u32,
        threads: u8,
    ) -> Result<Generator, NoMemory>
        requires { 1 ≤ threads }
        ensures state { IfOk result (λ g. state_of g ≡ first_state seed) }
        ensures stands { IfOk result (λ g. Stands 1 g) }
        ensures room { IfOk result (λ g. vec_capacity g.unfreed ≡ ops) }
        ensures threads { IfOk result (λ g. g.threads ≡ threads) }
    {
        match Vec::with_capacity(alloc, ops as usize) {
            Ok(unfreed) => Ok(Generator {
                draws: Draws { state: seed },
                unfreed,
                next_name: 1,
                phase: 1,
                threads,
            }),
            Err(_) => Err(NoMemory),
        }
    }

    /// The operation of this number.
    #[tactic(auto, using(crate::proofs::Operations::tick_at, crate::proofs::Operations::pass_at, crate::proofs::Operations::drawn_at))]
    pub(crate) fn next(&mut self, number: u32) -> Operation
        requires stands { Stands number self.old }
        requires limit { number ≤ 200000 }
        requires room { number ≤ vec_capacity self.old.unfreed }
        ensures operation { result ≡ operation_at self.old.threads number (state_of self.old) }
        ensures state { state_of self.new ≡ after_operation self.old.threads number (state_of self.old) }
        ensures stands { Stands (number + 1) self.new }
        ensures room { vec_capacity self.new.unfreed ≡ vec_capacity self.old.unfreed }
        ensures threads { self.new.threads ≡ self.old.threads }
    {
        match number % 1000 {
            999 => Operation::Tick {
                epoch: number / 1000 + 1,
            },
            0 => {
                self.phase += 1;
                Operation::Pass
            }
            _ => self.draw_operation(),
        }
    }

    /// An operation of a random thread.
    fn draw_operation(&mut self) -> Operation
        requires threads { 1 ≤ self.old.threads }
        requires names { self.old.next_name ≤ 200000 }
        requires room { vec_len self.old.unfreed < vec_capacity self.old.unfreed }
        requires few { vec_len self.old.unfreed < 200000 }
        ensures operation { result ≡ drawn_operation self.old.threads (state_of self.old) }
        ensures state { state_of self.new ≡ after_drawn self.old.threads (state_of self.old) }
        ensures names { self.new.next_name ≤ self.old.next_name + 1 }
        ensures unfreed { vec_len self.new.unfreed ≤ vec_len self.old.unfreed + 1 }
        ensures room { vec_capacity self.new.unfreed ≡ vec_capacity self.old.unfreed }
        ensures phase { self.new.phase ≡ self.old.phase }
        ensures threads { self.new.threads ≡ self.old.threads }
    {
        let choice = self.draws.draw(8);
        let thread = 1 + self.draws.draw(self.threads as u32) as u8;
        if self.is_allocation(choice) {
            self.allocate(thread)
        } else {
            self.free(thread)
        }
    }

    /// Whether an operation allocates where this choice of eight was drawn.
    fn is_allocation(&self, choice: u32) -> bool
        ensures { result ≡ (nat_lt choice 4 || nat_eq (length self.now.unfreed.items) 0) }
    {
        choice < 4 || self.unfreed.is_empty()
    }

    /// An allocation of a random request by this thread.
    fn allocate(&mut self, thread: u8) -> Operation
        requires names { self.old.next_name ≤ 200000 }
        requires room { vec_len self.old.unfreed < vec_capacity self.old.unfreed }
        ensures operation { result ≡ allocation thread (state_of self.old) }
        ensures state { state_of self.new ≡ after_allocation thread (state_of self.old) }
        ensures names { self.new.next_name ≡ self.old.next_name + 1 }
        ensures unfreed { vec_len self.new.unfreed ≡ vec_len self.old.unfreed + 1 }
        ensures room { vec_capacity self.new.unfreed ≡ vec_capacity self.old.unfreed }
        ensures phase { self.new.phase ≡ self.old.phase }
        ensures threads { self.new.threads ≡ self.old.threads }
    {
        let request = draw_request(&mut self.draws);
        let name = self.next_name;
        self.unfreed.push_reserved(Allocated {
            name,
            thread,
            phase: self.phase,
        });
        self.next_name += 1;
        Operation::Allocate {
            thread,
            name,
            request,
        }
    }

    /// A free of a random allocation that is left. Within its phase a block is freed by its own thread.
    fn free(&mut self, thread: u8) -> Operation
        requires some { 0 < vec_len self.old.unfreed }
        requires few { vec_len self.old.unfreed < 200000 }
        ensures operation { result ≡ free_of thread (state_of self.old) }
        ensures state { state_of self.new ≡ after_free (state_of self.old) }
        ensures names { self.new.next_name ≡ self.old.next_name }
        ensures unfreed { vec_len self.new.unfreed + 1 ≡ vec_len self.old.unfreed }
        ensures room { vec_capacity self.new.unfreed ≡ vec_capacity self.old.unfreed }
        ensures phase { self.new.phase ≡ self.old.phase }
        ensures threads { self.new.threads ≡ self.old.threads }
    {
        let place = self.draws.draw(self.unfreed.len() as u32);
        let freed = self.unfreed.swap_remove(place as usize);
        Operation::Free {
            thread: if freed.phase == self.phase {
                freed.thread
            } else {
                thread
            },
            name: freed.name,
        }
    }
}
