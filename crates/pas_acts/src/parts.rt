//! What every kit of a plan is made of: the rooms of the actors, the caches of the threads, and the list for the outcomes of a pass.
ghost use Rattle.std.specs.Prelude.{◌≡◌, ◌≤◌, ◌+◌, ℕ, IfOk, true, Some};
ghost use Rattle.pas_utility.specs.{Outcomes.places_of, Pools.{threads_of, room_of as room_for, has_seat, outcomes_of}};
ghost use Rattle.pas_acts.specs.Parts.{AreRooms, AreUnused};

use pas_cache::ThreadCache;
use pas_profile::{EventRoom, NoMemory};
use pas_utility::{Outcomes, Utility};
use std::alloc::Global;

/// The room of each actor, from the scavenger on. NoMemory where memory was wanting.
#[tactic(auto, using(crate::proofs::Making::next_room))]
pub fn rooms_of(
    alloc: Global,
    utility: &mut Utility,
    threads: u8,
) -> Result<Vec<EventRoom>, NoMemory>
    requires threads { threads ≤ threads_of utility.old }
    requires few { threads ≤ 16 }
    requires left { (k : ℕ) → k ≤ threads → (size : ℕ) × (room_for utility.old k ≡ Some size) }
    ensures rooms { IfOk result (λ rooms. AreRooms (room_for utility.old) (threads + 1) rooms.items) }
    ensures seats { (k : ℕ) → has_seat utility.new k ≡ has_seat utility.old k }
    ensures outcomes { outcomes_of utility.new ≡ outcomes_of utility.old }
    ensures threads { threads_of utility.new ≡ threads_of utility.old }
{
    let Ok(mut rooms) = Vec::with_capacity(alloc, threads as usize + 1) else {
        return Err(NoMemory);
    };
    for actor in 0..threads + 1 {
        let Some(room) = utility.event_room(actor) else {
            unreachable!();
        };
        rooms.push_reserved(room);
    }
    Ok(rooms)
}

/// An empty cache for each of so many threads, from thread 1 on. NoMemory where memory was wanting.
#[tactic(auto, using(crate::proofs::Making::none_unused, crate::proofs::Making::next_unused))]
pub fn caches_for(
    alloc: Global,
    utility: &mut Utility,
    threads: u8,
) -> Result<Vec<ThreadCache>, NoMemory>
    requires few { threads ≤ 16 }
    requires threads { threads ≤ threads_of utility.old }
    requires left { (k : ℕ) → 1 ≤ k → k ≤ threads → has_seat utility.old k ≡ true }
    ensures caches { IfOk result (λ caches. AreUnused threads caches.items) }
    ensures outcomes { outcomes_of utility.new ≡ outcomes_of utility.old }
{
    let Ok(mut caches) = Vec::with_capacity(alloc, threads as usize) else {
        return Err(NoMemory);
    };
    for below in 0..threads {
        let Some(seat) = utility.cache_seat(below + 1) else {
            unreachable!();
        };
        caches.push_reserved(ThreadCache::new(seat));
    }
    Ok(caches)
}

/// The list for the outcomes of a pass.
pub fn outcomes_from(utility: &mut Utility) -> Outcomes
    requires { (places : ℕ) × (outcomes_of utility.old ≡ Some places) }
    ensures { outcomes_of utility.old ≡ Some (places_of result) }
{
    let Some(outcomes) = utility.outcomes() else {
        unreachable!();
    };
    outcomes
}
