//! A storm round guards, and what is found afterwards.
ghost use Rattle.std.specs.Prelude.{◌≡◌, [], IfOk};
ghost use Rattle.pas_steps.specs.{Lists.Whole, Views.View};
ghost use Rattle.pas_plain.specs.Storms.{StormStands};
ghost use Rattle.pas_guard.specs.Books.{guards_in, size_of_book};
ghost use Rattle.pas_records.specs.Rooms.{records_in, room_of};
ghost use Rattle.pas_tests.specs.Kept.{guarded_region, Begins};

use crate::keeping::keep;
use crate::seating::closed;
use pas_guard::GuardBook;
use pas_plain::{PlainPass, PlainRegion, beside};
use pas_profile::{Block, Event, NoMemory, Profile};
use pas_records::{Record, Records, Said};
use pas_trials::{Fault, Guest, Hands, Visit, judge};
use pas_utility::Utility;
use std::alloc::{AllocError, Global};
use std::test::Fail;

/// The region has so many pages, and the keeper tries so many requests.
const PAGES: u32 = 12;

const ROUNDS: u32 = 4;

/// The book has places for so many guards, more than can be up.
const PLACES: u32 = 40;

/// Each actor has room for so many events.
const EVENTS: u32 = 4000;

/// What came of a storm.
#[derive(Clone, Copy, Drop)]
pub struct Found {
    /// How many guards went up, and how many of them were lowered, at the close too.
    pub raised: usize,
    pub lowered: usize,
    /// How many of the requests got no guard.
    pub unguarded: usize,
    /// How many pages the intruder unbacked.
    pub unbacked: usize,
    /// How many visits there were, at most 128 are counted.
    pub visits: usize,
    /// Whether no outer page of a guard that was up was backed.
    pub are_bare: bool,
    pub fault: Option<Fault>,
}

/// Two actors and one heap.
fn profile() -> Profile
    ensures { result ≡ guarded_region 12 }
{
    Profile {
        pages: PAGES,
        threads: 2,
        age: 2,
        heaps: 1,
        shared: 0,
        classes: 16,
    }
}

/// A new region with the passes of both actors.
fn opened(alloc: Global) -> Result<(PlainRegion, PlainPass, PlainPass), Fail>
    ensures begins { IfOk result (λ opened. Begins opened.0 opened.1 opened.2 12 4000) }
{
    let (desk, foreign) = beside(alloc, profile(), EVENTS)?;
    let (region, own) = desk.into_parts();
    Ok((region, own, foreign))
}

/// The intruder, actor 2, with these visits.
fn guest(alloc: Global, visits: Vec<Visit>) -> Result<Guest, Fail> {
    let mut utility = Utility::try_new(alloc, &profile(), &[0, 0, 0])?;
    let Some(seat) = utility.cache_seat(2) else {
        return Err(NoMemory.into());
    };
    let Some(outcomes) = utility.outcomes() else {
        return Err(NoMemory.into());
    };
    Ok(Guest::new(Hands::new(seat, outcomes, PAGES), visits))
}

/// Adds the blocks that were given.
fn add_given(live: &mut Vec<Block>, shown: &[Event]) -> Result<(), AllocError> {
    for event in shown {
        if let Event::Give { block, .. } = *event {
            live.push(block)?;
        }
    }
    Ok(())
}

/// Takes out those that ended.
fn take_ended(live: &mut Vec<Block>, shown: &[Event]) {
    for event in shown {
        if let Event::End { name, .. } = *event {
            live.retain(|block| block.name != name);
        }
    }
}

/// The blocks that live after what both actors showed.
fn live_after(alloc: Global, own: &[Event], foreign: &[Event]) -> Result<Vec<Block>, AllocError> {
    let mut live = Vec::new(alloc);
    add_given(&mut live, own)?;
    add_given(&mut live, foreign)?;
    take_ended(&mut live, own);
    take_ended(&mut live, foreign);
    Ok(live)
}

/// How many of the records say that a guard went up, and how many that one was lowered.
fn counts(records: &[Record]) -> (usize, usize) {
    let mut raised = 0usize;
    let mut lowered = 0usize;
    for record in records {
        match *record {
            Record::Said(_, Said::Guarded { .. }) => raised = raised.saturating_add(1),
            Record::Said(_, Said::Lowered { .. }) => lowered = lowered.saturating_add(1),
            _ => {}
        }
    }
    (raised, lowered)
}

/// How many pages were unbacked by what an actor showed.
fn unbacked(shown: &[Event]) -> usize {
    let mut count = 0usize;
    for event in shown {
        if let Event::Unback { .. } = *event {
            count = count.saturating_add(1);
        }
    }
    count
}

/// A region after a storm, with the passes of both actors and the intruder.
#[derive(Drop)]
struct Calm {
    region: PlainRegion,
    own: PlainPass,
    foreign: PlainPass,
    guest: Guest,
    are_bare: bool,
}

/// The keeper, actor 1, raises and lowers guards while the guest may act before each of its steps.
fn ride(
    region: PlainRegion,
    own: PlainPass,
    foreign: PlainPass,
    guest: Guest,
    book: &mut GuardBook,
    out: &mut Records,
) -> Calm
    requires begins { Begins region own foreign 12 4000 }
    requires empty { guards_in book.old ≡ [] }
    requires book { size_of_book book.old ≡ 40 }
    requires none { records_in out.old ≡ [] }
    requires room { room_of out.old ≡ 200 }
    ensures storm { (v : View) × (l : Whole) × StormStands result.region result.own result.foreign v l }
{
    let mut storm = region.storm(own, foreign, guest);
    let are_bare = keep(&mut storm, book, ROUNDS, out);
    let (region, own, foreign, guest) = storm.into_parts();
    Calm {
        region,
        own,
        foreign,
        guest,
        are_bare,
    }
}

/// A keeper, actor 1, raises and lowers guards while actor 2 makes its visits. Then the region is judged.
pub fn storm(alloc: Global, visits: Vec<Visit>) -> Result<Found, Fail> {
    let (region, own, foreign) = opened(alloc)?;
    let guest = guest(alloc, visits)?;
    let mut book = GuardBook::try_new(alloc, PLACES)?;
    let mut out = Records::try_new(alloc, 200)?;
    let calm = ride(region, own, foreign, guest, &mut book, &mut out);
    let live = live_after(alloc, calm.own.shown(), calm.foreign.shown())?;
    let visits = calm.guest.moments().len();
    let (raised, lowered) = counts(out.as_slice());
    let unbacked = unbacked(calm.foreign.shown());
    let are_bare = calm.are_bare;
    let state = closed(alloc, calm.region, calm.own, calm.foreign)?;
    Ok(Found {
        raised,
        lowered,
        unguarded: (ROUNDS as usize).saturating_sub(raised),
        unbacked,
        visits,
        are_bare,
        fault: judge(&state, &live),
    })
}
