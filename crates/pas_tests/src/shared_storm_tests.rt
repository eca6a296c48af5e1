//! Four threads in a storm at one shared region.
ghost use Rattle.std.specs.Prelude.{◌≡◌, ◌≤◌, All, IfOk};
ghost use Rattle.pas_shared.specs.Passes.{IsPassOf, profile_of};
ghost use Rattle.pas_steps.specs.States.{profile_of as the_profile_of};
ghost use Rattle.pas_tests.specs.Seated.{shared_profile};

use crate::shared_seating::opened;
use pas_machine::Machine;
use pas_profile::*;
use pas_shared::{SharedPass, SharedRegion, close};
use pas_steps::State;
use pas_trials::{Total, gather, run_storm, storm_workers};
use pas_utility::Utility;
use std::alloc::Global;
use std::test::Fail;
use std::thread::Threads;

const PAGES: u32 = 6;

const THREADS: u8 = 4;

const PROFILE: Profile = Profile {
    pages: PAGES,
    threads: THREADS,
    age: 2,
    heaps: 1,
    shared: 0,
    classes: 16,
};

/// The events for which each thread has room.
const EVENTS: u32 = 150_000;

const TURNS: u64 = 60_000;

/// Sizes of two classes, and one that is too large for any, so that its blocks are bit-fit.
const SIZES: [u32; 3] = [0, 300, 600];

/// Sizes of three classes. No two of their blocks overlap but at one address, where turns tell which came first.
const CLASS_SIZES: [u32; 3] = [16, 200, 512];

/// Whether the page's bit is set in a page vector's word.
fn has_bit(word: u64, page: u32) -> bool {
    word >> (page % 64) & 1 == 1
}

/// Whether all grains of the page are free.
fn is_empty(state: &State, page: u32) -> bool
    requires profile { the_profile_of state.now ≡ shared_profile 6 4 }
    requires page { (1 ≤ page) × (page ≤ 6) }
{
    state.word(Word::Free(page, 0)) == u64::MAX
        && state.word(Word::Free(page, 1)) == u64::MAX
        && state.word(Word::Free(page, 2)) == u64::MAX
        && state.word(Word::Free(page, 3)) == u64::MAX
}

/// Whether the page has its marks: with a deed it is offered and not parked, and where it is backed it is hinted.
fn has_marks(state: &State, page: u32) -> bool
    requires profile { the_profile_of state.now ≡ shared_profile 6 4 }
    requires page { (1 ≤ page) × (page ≤ 6) }
{
    let hinted = has_bit(state.word(Word::Empty(0)), page);
    let backed = state.word(Word::Backed(page)) == 1;
    let parked = has_bit(state.word(Word::Parked(0)), page);
    match read_deed(state.word(Word::Deed(page))) {
        Some(directory) => {
            let number = directory.number();
            number < 23
                && has_bit(state.word(Word::Eligible(number, 0)), page)
                && !parked
                && (!backed || hinted)
        }
        None => !parked && !backed,
    }
}

/// The number of the part's events that the machine has taken, once it has taken all that may come next.
fn advance(machine: &mut Machine, part: &[Event], taken: usize) -> usize {
    for place in taken..part.len() {
        if machine.step(&part[place]).is_err() {
            return place;
        }
    }
    part.len()
}

/// The machine takes of each pass in turn as many events as may come next. How many it has taken of all.
fn advance_each(machine: &mut Machine, passes: &[SharedPass], taken: &mut [usize; 4]) -> u64 {
    let mut total = 0u64;
    for at in 0..4 {
        if at < passes.len() {
            taken[at] = advance(machine, passes[at].shown(), taken[at]);
            total = total.saturating_add(taken[at] as u64);
        }
    }
    total
}

/// How many events of the passes a machine takes, each pass's in its own order, and as many as may come next at a time.
fn taken_by_a_machine(alloc: Global, passes: &[SharedPass]) -> Result<u64, Fail> {
    let mut machine = Machine::try_new(alloc, PROFILE)?;
    let mut taken = [0usize; 4];
    let mut total = 0u64;
    for _round in 0..EVENTS {
        let now = advance_each(&mut machine, passes, &mut taken);
        if now == total {
            return Ok(total);
        }
        total = now;
    }
    Ok(total)
}

/// A region after a storm of blocks of these sizes, with the passes of all threads, and what they did.
fn stormed<R: AllocGlobal + Threads + Sync>(
    rt: &R,
    sizes: [u32; 3],
) -> Result<(SharedRegion, Vec<SharedPass>, Total), Fail>
    ensures passes { IfOk result (λ r. All (IsPassOf r.0) r.1.items) }
    ensures profile { IfOk result (λ r. profile_of r.0 ≡ shared_profile 6 4) }
{
    let alloc = rt.alloc();
    let (region, passes) = opened(alloc, PAGES, THREADS, EVENTS)?;
    let mut utility = Utility::try_new(alloc, region.profile(), &[0; 5])?;
    let mut workers = storm_workers(alloc, &region, passes, &mut utility, THREADS, EVENTS, sizes)?;
    run_storm(rt, &region, &mut workers, EVENTS, TURNS);
    let (passes, total) = gather(alloc, &region, workers)?;
    Ok((region, passes, total))
}

#[test]
fn a_storm_loses_nothing(rt: HostRuntime) -> Result<(), Fail> {
    let (region, passes, total) = stormed(&rt, SIZES)?;
    assert!(rt; total.stopped == 4 && total.served > 0 && total.steps >= 1_000_000);
    let state = close(region, passes);
    for page in 1..PAGES + 1 {
        assert!(rt; is_empty(&state, page));
        assert!(rt; has_marks(&state, page));
    }
    Ok(())
}

#[test]
fn a_machine_takes_the_events_of_a_storm(rt: HostRuntime) -> Result<(), Fail> {
    let (_, passes, total) = stormed(&rt, CLASS_SIZES)?;
    assert!(rt; total.events > 1000);
    assert!(rt; taken_by_a_machine(rt.alloc(), &passes)? == total.events);
    Ok(())
}
