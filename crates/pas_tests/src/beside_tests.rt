//! An actor stops its cache or refills a class while another one frees or asks for blocks between its steps.
ghost use Rattle.std.specs.Prelude.{◌≡◌, ◌<◌, []};
ghost use Rattle.pas_steps.specs.{Lists.Whole, States.profile_of as the_profile_of, Views.View};
ghost use Rattle.pas_cache.specs.Caches.{cached};
ghost use Rattle.pas_plain.specs.{Plain.profile_of, Seats.{region_of, Opens}, Storms.StormStands};
ghost use Rattle.pas_tests.specs.Seated.{RestsBeside, two_threads};

use crate::seating::{cache_for, closed, plain_profile, seat_for};
use pas_cache::ThreadCache;
use pas_plain::{Intruder, PlainDesk, PlainPass, PlainRegion, beside};
use pas_profile::*;
use pas_steps::{Desk, State};
use pas_trials::{Borrower, Flusher, borrow_many, fill};
use std::alloc::Global;
use std::test::Fail;

/// The first block of page 1.
const NAME: Name = Name {
    address: Address(4096),
    turn: 0,
};

/// The class of 32 bytes.
const CLASS: u8 = 1;

/// A region after a storm, with the passes of both actors, and how many steps the own actor made in it.
#[derive(Drop)]
struct Calm {
    steps: u64,
    region: PlainRegion,
    own: PlainPass,
    foreign: PlainPass,
}

/// The actor of the desk stops its cache, while the intruder acts for the other actor before each of its steps.
fn stop_in_a_storm(
    desk: PlainDesk,
    foreign: PlainPass,
    cache: &mut ThreadCache,
    intruder: Flusher,
) -> Calm
    requires rest { RestsBeside desk foreign (cached cache.old) }
    requires log { (cached cache.old).log ≡ [] }
    ensures storm { (v : View) × (l : Whole) × StormStands result.region result.own result.foreign v l }
    ensures profile { profile_of result.region ≡ profile_of (region_of desk) }
{
    let before = desk.count();
    let (region, own) = desk.into_parts();
    let mut storm = region.storm(own, foreign, intruder);
    cache.stop(&mut storm);
    let steps = storm.count().saturating_sub(before);
    let (region, own, foreign, _) = storm.into_parts();
    Calm {
        steps,
        region,
        own,
        foreign,
    }
}

/// The actor of the desk, which made no step yet, refills a class and stops the slots, while the intruder acts for the other actor before each of its
/// steps.
fn refill_in_a_storm(desk: PlainDesk, foreign: PlainPass, intruder: Borrower) -> Calm
    requires opens { Opens desk foreign 5000 }
    requires profile { profile_of (region_of desk) ≡ two_threads 1 }
    ensures storm { (v : View) × (l : Whole) × StormStands result.region result.own result.foreign v l }
    ensures profile { profile_of result.region ≡ two_threads 1 }
{
    let (region, own) = desk.into_parts();
    let mut storm = region.storm(own, foreign, intruder);
    let _ = fill(&mut storm, 0, CLASS, true);
    let steps = storm.count();
    let (region, own, foreign, _) = storm.into_parts();
    Calm {
        steps,
        region,
        own,
        foreign,
    }
}

/// The offered pages of this class, the parked pages, the hinted pages, and the free words of page 1.
fn words_of(state: &State, class: u16) -> [u64; 7]
    requires profile { the_profile_of state.now ≡ two_threads 1 }
    requires class { class < 16 }
{
    [
        state.word(Word::Eligible(class, 0)),
        state.word(Word::Parked(0)),
        state.word(Word::Empty(0)),
        state.word(Word::Free(1, 0)),
        state.word(Word::Free(1, 1)),
        state.word(Word::Free(1, 2)),
        state.word(Word::Free(1, 3)),
    ]
}

/// Actor 1 refills a class, and actor 2 asks for a block of it and stops its cache before each of these steps. Some words of the
/// region then.
fn refill_beside_requests(alloc: Global, first: u64, last: u64) -> Result<[u64; 7], Fail> {
    let (desk, foreign) = beside(alloc, plain_profile(1), 5000)?;
    let seat = seat_for(alloc, plain_profile(1), 2)?;
    let calm = refill_in_a_storm(desk, foreign, Borrower::new(seat, first, last));
    let state = closed(alloc, calm.region, calm.own, calm.foreign)?;
    Ok(words_of(&state, CLASS as u16))
}

/// Actor 1 asks for the eight blocks of a page, and stops its cache. Before its step of this number actor 2 frees the first of them. The steps
/// of actor 1, and words of the region.
fn park_beside_a_free(alloc: Global, at: u64) -> Result<(u64, [u64; 7]), Fail> {
    let (mut desk, foreign) = beside(alloc, plain_profile(1), 100)?;
    let mut cache = cache_for(alloc, plain_profile(1))?;
    borrow_many(&mut desk, &mut cache, 8);
    let calm = stop_in_a_storm(desk, foreign, &mut cache, Flusher { at, name: NAME });
    let steps = calm.steps;
    let state = closed(alloc, calm.region, calm.own, calm.foreign)?;
    Ok((steps, words_of(&state, 15)))
}

/// How many steps the stop takes where the block is freed before the step of this number, from 0 on. A look at the epoch; four looks, the
/// parking, four looks; then the page is taken back and offered where they show the free block.
const STEPS: [u64; 12] = [10, 6, 6, 12, 12, 12, 12, 11, 10, 10, 10, 10];

/// The words of a full page, which is parked, and of one that is offered with a free block.
const FULL: [u64; 7] = [0, 2, 0, 0, 0, 0, 0];

const OFFERED: [u64; 7] = [2, 0, 0, 0xffffffff, 0, 0, 0];

/// Whether page 1 ends offered wherever the block was freed before a step of the stop, and parked otherwise; in as many steps as the table
/// says.
fn is_parked_or_offered(alloc: Global, at: u64) -> Result<bool, Fail>
    requires { at < 12 }
{
    let (steps, words) = park_beside_a_free(alloc, at)?;
    let expected = if 1 <= at && at <= 10 { OFFERED } else { FULL };
    Ok(steps == STEPS[at as usize] && words == expected)
}

/// Whether page 1 ends offered and not parked after requests before these own steps of a refill, and hinted where all its grains are free.
fn loses_no_page(alloc: Global, first: u64, last: u64) -> Result<bool, Fail> {
    let words = refill_beside_requests(alloc, first, last)?;
    let is_empty = words[3] & words[4] & words[5] & words[6] == u64::MAX;
    Ok(words[0] == 2 && words[1] == 0 && (!is_empty || words[2] == 2))
}

#[test]
fn a_page_that_is_freed_while_it_is_parked_is_offered(rt: HostRuntime) -> Result<(), Fail> {
    for at in 0..12u64 {
        assert!(rt; is_parked_or_offered(rt.alloc(), at)?);
    }
    Ok(())
}

#[test]
fn a_refill_among_requests_loses_no_page(rt: HostRuntime) -> Result<(), Fail> {
    for at in 1..31u64 {
        assert!(rt; loses_no_page(rt.alloc(), at, at)?);
        assert!(rt; loses_no_page(rt.alloc(), at, at + 7)?);
    }
    Ok(())
}
