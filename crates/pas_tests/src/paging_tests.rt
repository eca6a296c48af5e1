//! Whole pages that ended, with an index and without one.
ghost use Rattle.std.specs.Prelude.{IfOk};

use pas_cache::ThreadCache;
use pas_large::{Door, LargeIndex, NoIndex, PlainDoor, SharedDoor};
use pas_plain::alone;
use pas_profile::*;
use pas_steps::Desk;
use pas_trials::reuse_pages;
use pas_utility::Utility;
use std::alloc::Global;
use std::sync::{Mutex, Wait};
use std::test::Fail;

const PROFILE: Profile = Profile {
    pages: 1200,
    threads: 1,
    age: 2,
    heaps: 1,
    shared: 0,
    classes: 16,
};

/// In a region of 1,200 pages, of which the first 1,000 were asked for and the last two of them ended: what a request for two pages comes to that asks
/// this door, and its number of steps.
fn reuse<O: Door>(alloc: Global, door: &mut O) -> Result<(Result<Block, NoRoom>, u64), Fail> {
    let mut desk = alone(alloc, PROFILE, 4000)?;
    let mut utility = Utility::try_new(alloc, desk.profile(), &[0, 4000])?;
    let Some(seat) = utility.cache_seat(1) else {
        return Err(NoMemory.into());
    };
    let mut cache = ThreadCache::new(seat);
    Ok(reuse_pages(&mut desk, door, &mut cache))
}

/// Whether the answer is a block on pages 999 and 1,000.
fn is_of_last_two(answer: &Result<Block, NoRoom>) -> bool {
    match answer {
        Ok(block) => block.name.address == Address(0x003e_7000) && block.room == 8192,
        Err(_) => false,
    }
}

#[test]
fn the_index_saves_the_scan(rt: HostRuntime) -> Result<(), Fail> {
    let mut indexes = [LargeIndex::new()];
    let (answer, steps) = reuse(rt.alloc(), &mut PlainDoor::new(&mut indexes))?;
    assert!(rt; is_of_last_two(&answer) && steps <= 44);
    Ok(())
}

#[test]
fn without_an_index_the_pages_are_scanned(rt: HostRuntime) -> Result<(), Fail> {
    let (answer, steps) = reuse(rt.alloc(), &mut NoIndex)?;
    assert!(rt; is_of_last_two(&answer) && steps > 44);
    Ok(())
}

/// Whether a door to indexes that threads share names each page that was settled once, and to its heap alone.
fn names_pages_once<R: Wait>(rt: &R) -> bool {
    let indexes = [Mutex::new(LargeIndex::new()), Mutex::new(LargeIndex::new())];
    let mut door = SharedDoor::new(rt, &indexes);
    door.settle(1, Range { first: 2, pages: 2 });
    door.settle(2, Range { first: 4, pages: 1 });
    let others = [door.find(0, 1), door.find(1, 3), door.find(2, 1)];
    let own = [door.find(1, 1), door.find(1, 1), door.find(1, 1)];
    others == [None; 3] && own == [Some(2), Some(3), None]
}

#[test]
fn a_shared_door_names_pages_once(rt: HostRuntime) {
    assert!(rt; names_pages_once(&rt));
}
