ghost use Rattle.std.specs.Prelude.{◌≡◌, ◌≤◌, ◌<◌, IfOk, Some, length};
ghost use Rattle.pas_utility.specs.{Outcomes.{pairs_in, places_of}, Pools.{threads_of, outcomes_of}};

use pas_profile::{NoMemory, Outcome, Profile};
use pas_utility::*;
use std::alloc::Global;
use std::test::Fail;

/// The parts for a region of a page and two threads, with rooms for 3, 5 and 7 events.
fn utility(alloc: Global) -> Result<Utility, NoMemory>
    ensures threads { IfOk result (λ utility. threads_of utility ≡ 2) }
    ensures outcomes { IfOk result (λ utility. outcomes_of utility ≡ Some 1) }
{
    let profile = Profile {
        pages: 1,
        threads: 2,
        age: 2,
        heaps: 1,
        shared: 0,
        classes: 16,
    };
    Utility::try_new(alloc, &profile, &[3, 5, 7])
}

/// How many events the room that the actor gets has place for. None where it gets none.
fn room_for(utility: &mut Utility, actor: u8) -> Option<u32>
    requires { actor ≤ threads_of utility.old }
    ensures { threads_of utility.new ≡ threads_of utility.old }
{
    let room = utility.event_room(actor)?;
    Some(room.spare())
}

#[test]
fn each_room_is_handed_out_once(rt: HostRuntime) -> Result<(), Fail> {
    let mut utility = utility(rt.alloc())?;
    let sizes = [
        room_for(&mut utility, 0),
        room_for(&mut utility, 1),
        room_for(&mut utility, 1),
        room_for(&mut utility, 2),
        room_for(&mut utility, 2),
        room_for(&mut utility, 0),
    ];
    assert!(rt; sizes == [Some(3), Some(5), None, Some(7), None, None]);
    Ok(())
}

/// The thread of the seat that is asked for. None where there is no seat.
fn thread_of_seat(utility: &mut Utility, thread: u8) -> Option<u8>
    requires { (1 ≤ thread) × (thread ≤ threads_of utility.old) }
    ensures { threads_of utility.new ≡ threads_of utility.old }
{
    let seat = utility.cache_seat(thread)?;
    Some(seat.actor())
}

#[test]
fn each_seat_is_handed_out_once(rt: HostRuntime) -> Result<(), Fail> {
    let mut utility = utility(rt.alloc())?;
    let threads = [
        thread_of_seat(&mut utility, 2),
        thread_of_seat(&mut utility, 1),
        thread_of_seat(&mut utility, 2),
        thread_of_seat(&mut utility, 1),
    ];
    assert!(rt; threads == [Some(2), Some(1), None, None]);
    Ok(())
}

/// Whether a list with a place takes an outcome, and is emptied.
fn takes_one(outcomes: &mut Outcomes) -> bool
    requires { length (pairs_in outcomes.old) < places_of outcomes.old }
{
    outcomes.push((1, Outcome::Young(5)));
    let taken = outcomes.as_slice() == [(1, Outcome::Young(5))].as_slice();
    outcomes.clear();
    taken && outcomes.as_slice().is_empty()
}

/// Whether there is a list of outcomes, once.
fn has_one_list(utility: &mut Utility) -> bool
    requires { outcomes_of utility.old ≡ Some 1 }
{
    match utility.outcomes() {
        Some(mut outcomes) => takes_one(&mut outcomes) && utility.outcomes().is_none(),
        None => false,
    }
}

#[test]
fn the_list_of_outcomes_is_handed_out_once(rt: HostRuntime) -> Result<(), Fail> {
    let mut utility = utility(rt.alloc())?;
    assert!(rt; has_one_list(&mut utility));
    Ok(())
}
