//! The pools of a region.
ghost use Rattle.std.specs.Prelude.{◌≡◌, ◌+◌, vec_len, length, IfOk, ℕ, ◌≤◌};
ghost use Rattle.pas_utility.specs.Parts.{AreEmpty, AreNamed, AreRooms, AreSeats, pairs_left};

use crate::outcomes::Outcomes;
use crate::seat::CacheSeat;
use pas_profile::{EventRoom, NoMemory, Profile};
use std::alloc::Global;

/// An event room for each actor, a cache's seat for each thread and a list of outcomes, as far as they weren't handed out yet.
#[derive(Drop)]
pub struct Utility {
    /// By actor, from the scavenger on.
    rooms: Vec<Option<EventRoom>>,
    /// By actor. The scavenger has none.
    seats: Vec<Option<CacheSeat>>,
    outcomes: Option<Outcomes>,
    ghost some: { 1 ≤ vec_len rooms },
    ghost matched: { vec_len rooms ≡ vec_len seats },
    ghost empty: { AreEmpty rooms.items },
    ghost named: { AreNamed seats.items },
    ghost blank: { pairs_left outcomes ≡ 0 },
}

/// A room for the events of each actor, by their bounds.
fn rooms_for(alloc: Global, bounds: &[u32]) -> Result<Vec<Option<EventRoom>>, NoMemory>
    ensures { IfOk result (λ rooms. AreRooms bounds.now rooms.items) }
{
    let Ok(mut rooms) = Vec::with_capacity(alloc, bounds.len()) else {
        return Err(NoMemory);
    };
    for bound in bounds {
        let room = EventRoom::try_new(alloc, *bound)?;
        rooms.push_reserved(Some(room));
    }
    Ok(rooms)
}

/// A seat for each of so many threads.
fn seats_for(alloc: Global, threads: u8) -> Result<Vec<Option<CacheSeat>>, NoMemory>
    ensures { IfOk result (λ seats. AreSeats threads seats.items) }
{
    let Ok(mut seats) = Vec::with_capacity(alloc, threads as usize + 1) else {
        return Err(NoMemory);
    };
    seats.push_reserved(None);
    for below in 0..threads {
        seats.push_reserved(Some(CacheSeat::new(below + 1)));
    }
    Ok(seats)
}

impl Utility {
    ghost use Rattle.std.specs.Prelude.{◌≢◌, ◌∷◌, [], MatchOption, Some, None, slice_index, Bool, true, false};
    ghost use Rattle.pas_profile.specs.Rooms.{shown, size_of_room};
    ghost use Rattle.pas_utility.specs.{Seats.thread_of, Outcomes.{pairs_in, places_of}, Pools.{threads_of, room_of, has_seat, outcomes_of}};

    /// All parts for a region of this profile: for actor k a room of `bounds[k]` events without an event, for each thread a seat, and a list
    /// of outcomes with a place for each page.
    ///
    /// NoMemory where memory was wanting. Costs one pass over the bounds.
    pub fn try_new(alloc: Global, profile: &Profile, bounds: &[u32]) -> Result<Utility, NoMemory>
        requires bounds { length bounds.now ≡ profile.now.threads + 1 }
        ensures threads { IfOk result (λ utility. threads_of utility ≡ profile.now.threads) }
        ensures rooms { IfOk result (λ utility. (k : ℕ) → k ≤ profile.now.threads → room_of utility k ≡ Some (slice_index bounds.now k)) }
        ensures seats { IfOk result (λ utility. (k : ℕ) → 1 ≤ k → k ≤ profile.now.threads → has_seat utility k ≡ true) }
        ensures outcomes { IfOk result (λ utility. outcomes_of utility ≡ Some profile.now.pages) }
    {
        let rooms = rooms_for(alloc, bounds)?;
        let seats = seats_for(alloc, profile.threads)?;
        let outcomes = Some(Outcomes::try_new(alloc, profile.pages)?);
        Ok(Utility {
            rooms,
            seats,
            outcomes,
        })
    }

    /// The event room of the actor, which has no event. None exactly where it was handed out before.
    ///
    /// All other parts stay as they are. Takes no memory.
    pub fn event_room(&mut self, actor: u8) -> Option<EventRoom>
        requires { actor ≤ threads_of self.old }
        ensures room { MatchOption result (room_of self.old actor ≡ None) (λ room. (room_of self.old actor ≡ Some (size_of_room room)) × (shown room ≡ [])) }
        ensures gone { room_of self.new actor ≡ None }
        ensures others { (k : ℕ) → k ≢ actor → room_of self.new k ≡ room_of self.old k }
        ensures seats { (k : ℕ) → has_seat self.new k ≡ has_seat self.old k }
        ensures outcomes { outcomes_of self.new ≡ outcomes_of self.old }
        ensures threads { threads_of self.new ≡ threads_of self.old }
    {
        self.rooms[actor as usize].take()
    }

    /// The seat of the thread's cache. None exactly where it was handed out before.
    ///
    /// All other parts stay as they are. Takes no memory.
    pub fn cache_seat(&mut self, actor: u8) -> Option<CacheSeat>
        requires thread { 1 ≤ actor }
        requires exists { actor ≤ threads_of self.old }
        ensures seat { MatchOption result (has_seat self.old actor ≡ false) (λ seat. (has_seat self.old actor ≡ true) × (thread_of seat ≡ actor)) }
        ensures gone { has_seat self.new actor ≡ false }
        ensures others { (k : ℕ) → k ≢ actor → has_seat self.new k ≡ has_seat self.old k }
        ensures rooms { (k : ℕ) → room_of self.new k ≡ room_of self.old k }
        ensures outcomes { outcomes_of self.new ≡ outcomes_of self.old }
        ensures threads { threads_of self.new ≡ threads_of self.old }
    {
        self.seats[actor as usize].take()
    }

    /// The list for the outcomes of a pass, which has none. None exactly where it was handed out before.
    ///
    /// All other parts stay as they are. Takes no memory.
    pub fn outcomes(&mut self) -> Option<Outcomes>
        ensures outcomes { MatchOption result (outcomes_of self.old ≡ None) (λ outcomes. (outcomes_of self.old ≡ Some (places_of outcomes)) × (pairs_in outcomes ≡ [])) }
        ensures gone { outcomes_of self.new ≡ None }
        ensures rooms { (k : ℕ) → room_of self.new k ≡ room_of self.old k }
        ensures seats { (k : ℕ) → has_seat self.new k ≡ has_seat self.old k }
        ensures threads { threads_of self.new ≡ threads_of self.old }
    {
        self.outcomes.take()
    }
}
