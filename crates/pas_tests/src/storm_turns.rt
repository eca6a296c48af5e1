//! A storm: an errand of actor 1 among the visits of actor 2, and what is found afterwards.
ghost use Rattle.std.specs.Prelude.{◌≡◌, ◌≤◌, [], true, IfOk};
ghost use Rattle.pas_steps.specs.{Desks.CanCall, Lists.Whole, States.profile_of as the_profile_of, Views.View};
ghost use Rattle.pas_cache.specs.Caches.{AtRest};
ghost use Rattle.pas_plain.specs.{Plain.{profile_of, room_of_pass, forgotten_by, spare_in}, Seats.{region_of, pass_of}, Storms.StormStands};
ghost use Rattle.pas_trials.specs.{Filling.Steps, Storms.cache_of};
ghost use Rattle.pas_tests.specs.Seated.{RestsBeside, stormy};

use crate::seating::{closed, stormy_profile};
use crate::weaving::{Timed, live_after, weave};
use arrayvec::ArrayVec;
use pas_machine::Machine;
use pas_plain::{PlainDesk, PlainPass, PlainRegion, beside};
use pas_profile::{Event, NoMemory, Word};
use pas_steps::{Desk, State};
use pas_trials::{Errand, Fault, Guest, Hands, MOST_WATCHED, Moment, Visit, Watched, judge};
use pas_utility::Utility;
use std::alloc::{AllocError, Global};
use std::test::Fail;

/// What is changed after a storm, before the region and the events are looked at.
#[derive(Clone, Copy, Drop)]
pub enum Spoil {
    Nothing,
    /// No page is offered to slots of 512 bytes.
    Offered,
    /// No page is hinted.
    Hinted,
    /// No grain of the last free word of page 1 is free.
    Free,
    /// The first event is left out.
    FirstLost,
    /// The last event comes once more.
    LastTwice,
}

/// A region after a storm, with the passes of both actors, and what was remembered of it.
#[derive(Drop)]
pub struct Calm {
    region: PlainRegion,
    own: PlainPass,
    foreign: PlainPass,
    /// The number of own steps before the storm.
    begun: u64,
    counts: ArrayVec<u64, MOST_WATCHED>,
    guest: Guest,
}

/// What came of a storm.
#[derive(Drop)]
pub struct Found {
    /// How many steps actor 1 made in it.
    pub steps: u64,
    /// How many visits and steps of actor 2 there were.
    pub visits: usize,
    pub foreign_steps: u64,
    /// The events of both, the oldest first.
    pub events: Vec<Event>,
    pub fault: Option<Fault>,
}

/// The hands of a thread of a stormy region, which did nothing yet.
fn hands_for(alloc: Global, pages: u32, thread: u8) -> Result<Hands, Fail>
    requires thread { (1 ≤ thread) × (thread ≤ 2) }
    ensures locals { IfOk result (λ hands. (cache_of hands).locals ≡ []) }
{
    let mut utility = Utility::try_new(alloc, &stormy_profile(pages), &[0, 0, 0])?;
    let Some(seat) = utility.cache_seat(thread) else {
        return Err(NoMemory.into());
    };
    let Some(outcomes) = utility.outcomes() else {
        return Err(NoMemory.into());
    };
    Ok(Hands::new(seat, outcomes, pages))
}

/// Actor 1 goes on errands before the storm. Each asks for room of 70 events.
fn prepare(desk: &mut PlainDesk, foreign: &PlainPass, hands: &mut Hands, errands: &[Errand]) -> bool
    requires rest { RestsBeside desk.old foreign.now (cache_of hands.old) }
    requires room { room_of_pass (pass_of desk.old) ≡ 1000 }
    requires all { forgotten_by (pass_of desk.old) ≡ 0 }
    ensures rest { RestsBeside desk.new foreign.now (cache_of hands.new) }
    ensures room { room_of_pass (pass_of desk.new) ≡ 1000 }
    ensures profile { profile_of (region_of desk.new) ≡ profile_of (region_of desk.old) }
    ensures spare { result ≡ true → 100 ≤ spare_in (pass_of desk.new) }
{
    for errand in errands {
        if desk.shown().len() > 900 {
            return false;
        }
        hands.go(desk, *errand);
    }
    desk.shown().len() <= 900
}

/// The actor goes on the errand and stops its cache.
fn go_and_stop<D: Desk>(desk: &mut D, hands: &mut Hands, errand: Errand)
    requires can { CanCall (D.standing desk.old) (AtRest (D.standing desk.old).seat.profile (cache_of hands.old)) }
    requires room { 70 ≤ D.spare_of desk.old }
    ensures steps { Steps (D.standing desk.old) (D.standing desk.new) (AtRest (D.standing desk.old).seat.profile (cache_of hands.old)) }
    ensures home { D.home desk.new ≡ D.home desk.old }
{
    hands.go(desk, errand);
    hands.stop(desk);
}

/// Actor 1 goes on the errand and stops its cache, while the guest may act before each of its steps.
fn ride(
    desk: PlainDesk,
    foreign: PlainPass,
    hands: &mut Hands,
    errand: Errand,
    guest: Guest,
) -> Calm
    requires rest { RestsBeside desk foreign (cache_of hands.old) }
    requires room { room_of_pass (pass_of desk) ≡ 1000 }
    requires spare { 100 ≤ spare_in (pass_of desk) }
    ensures storm { (v : View) × (l : Whole) × StormStands result.region result.own result.foreign v l }
    ensures profile { profile_of result.region ≡ profile_of (region_of desk) }
{
    let begun = desk.count();
    let (region, own) = desk.into_parts();
    let mut storm = Watched::new(region.storm(own, foreign, guest));
    go_and_stop(&mut storm, hands, errand);
    let (storm, counts) = storm.into_parts();
    let (region, own, foreign, guest) = storm.into_parts();
    Calm {
        region,
        own,
        foreign,
        begun,
        counts,
        guest,
    }
}

/// The own events with the own steps at which they came, 0 before the storm.
fn own_events(
    alloc: Global,
    shown: &[Event],
    begun: u64,
    counts: &[u64],
) -> Result<Vec<Timed>, AllocError> {
    let mut timed = Vec::new(alloc);
    let before = shown.len().saturating_sub(counts.len());
    for place in 0..shown.len() {
        let at = match place.checked_sub(before) {
            Some(later) if later < counts.len() => counts[later].saturating_sub(begun),
            _ => 0,
        };
        timed.push(Timed {
            at,
            event: shown[place],
        })?;
    }
    Ok(timed)
}

/// The first moment by which more than so many events were shown.
fn moment_of(moments: &[Moment], place: usize) -> u64 {
    for moment in moments {
        if moment.shown > place {
            return moment.at;
        }
    }
    u64::MAX
}

/// The foreign events with the own steps before which they came.
fn foreign_events(
    alloc: Global,
    shown: &[Event],
    moments: &[Moment],
) -> Result<Vec<Timed>, AllocError> {
    let mut timed = Vec::new(alloc);
    for place in 0..shown.len() {
        let at = moment_of(moments, place);
        timed.push(Timed {
            at,
            event: shown[place],
        })?;
    }
    Ok(timed)
}

/// The events of both actors, the oldest first.
fn events_of(alloc: Global, calm: &Calm) -> Result<Vec<Event>, AllocError> {
    let own = own_events(alloc, calm.own.shown(), calm.begun, calm.counts.as_slice())?;
    let foreign = foreign_events(alloc, calm.foreign.shown(), calm.guest.moments())?;
    weave(alloc, &own, &foreign)
}

/// Changes a word of the region.
fn spoil_words(state: &mut State, spoil: Spoil, pages: u32)
    requires pages { 1 ≤ pages }
    requires profile { the_profile_of state.old ≡ stormy pages }
{
    match spoil {
        Spoil::Offered => state.set_word(Word::Eligible(15, 0), 0),
        Spoil::Hinted => state.set_word(Word::Empty(0), 0),
        Spoil::Free => state.set_word(Word::Free(1, 3), 0),
        _ => {}
    }
}

/// Leaves an event out, or adds one.
fn spoil_events(events: &mut Vec<Event>, spoil: Spoil) -> Result<(), AllocError> {
    match spoil {
        Spoil::FirstLost if !events.is_empty() => {
            events.remove(0);
        }
        Spoil::LastTwice => {
            if let Some(last) = events.last().copied() {
                events.push(last)?;
            }
        }
        _ => {}
    }
    Ok(())
}

/// The first event that the machine doesn't take.
fn first_unlawful(alloc: Global, pages: u32, events: &[Event]) -> Result<Option<Fault>, Fail>
    requires pages { (1 ≤ pages) × (pages ≤ 30) }
{
    let mut machine = Machine::try_new(alloc, stormy_profile(pages))?;
    for place in 0..events.len() {
        if machine.step(&events[place]).is_err() {
            return Ok(Some(Fault::Unlawful(place)));
        }
    }
    Ok(None)
}

/// What is wrong with the events, or else with the region in which the blocks live that live after them.
fn fault_in(
    alloc: Global,
    pages: u32,
    state: &State,
    events: &[Event],
) -> Result<Option<Fault>, Fail>
    requires pages { (1 ≤ pages) × (pages ≤ 30) }
{
    let unlawful = first_unlawful(alloc, pages, events)?;
    if unlawful.is_some() {
        return Ok(unlawful);
    }
    let live = live_after(alloc, events)?;
    Ok(judge(state, &live))
}

/// Judges a region after a storm.
fn settled(alloc: Global, pages: u32, calm: Calm, spoil: Spoil) -> Result<Found, Fail>
    requires pages { (1 ≤ pages) × (pages ≤ 30) }
    requires storm { (v : View) × (l : Whole) × StormStands calm.region calm.own calm.foreign v l }
    requires profile { profile_of calm.region ≡ stormy pages }
{
    let mut events = events_of(alloc, &calm)?;
    spoil_events(&mut events, spoil)?;
    let steps = calm.own.count().saturating_sub(calm.begun);
    let visits = calm.guest.moments().len();
    let foreign_steps = calm.foreign.count();
    let mut state = closed(alloc, calm.region, calm.own, calm.foreign)?;
    spoil_words(&mut state, spoil, pages);
    let fault = fault_in(alloc, pages, &state, &events)?;
    Ok(Found {
        steps,
        visits,
        foreign_steps,
        events,
        fault,
    })
}

/// Actor 1 goes on errands in a region of so many pages, and then on one more and stops its cache, while actor 2 makes its visits. Then
/// something may be spoilt.
pub fn storm(
    alloc: Global,
    pages: u32,
    before: &[Errand],
    errand: Errand,
    visits: Vec<Visit>,
    spoil: Spoil,
) -> Result<Found, Fail>
    requires pages { (1 ≤ pages) × (pages ≤ 30) }
{
    let (mut desk, foreign) = beside(alloc, stormy_profile(pages), 1000)?;
    let mut hands = hands_for(alloc, pages, 1)?;
    let guest = Guest::new(hands_for(alloc, pages, 2)?, visits);
    if !prepare(&mut desk, &foreign, &mut hands, before) {
        return Err(Fail::new("too many events before the storm"));
    }
    let calm = ride(desk, foreign, &mut hands, errand, guest);
    settled(alloc, pages, calm, spoil)
}
