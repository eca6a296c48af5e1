//! What a replay on threads needs that can be made before its plan is known.
ghost use Rattle.std.specs.Prelude.{◌≡◌, ◌<◌, ◌+◌, ℕ, None, IfOk};
ghost use Rattle.pas_profile.specs.Profiles.{IsValid};
ghost use Rattle.pas_answers.specs.Names.{block_named};
ghost use Rattle.pas_shared.specs.Passes.{profile_of_opening};

use crate::estimate::Estimate;
use pas_acts::names::{NameBook, Request, Requests};
use pas_profile::{Event, EventRoom, NoMemory, Profile};
use pas_records::{Record, Records};
use pas_shared::Opening;
use std::alloc::Global;
use std::thread::{Threads, join};

/// What a kit may have of what was made before: a book in which no name is, and rooms for the thread that speaks first.
#[derive(Drop)]
pub(crate) struct Spare {
    pub(crate) book: NameBook,
    pub(crate) records: Records,
    pub(crate) requests: Requests,
    ghost unnamed: { (name : ℕ) → block_named book.names name ≡ None },
}

/// A region that nobody used yet, and rooms as large as a trace is likely to need. What a replay is likely to use of their memory was touched: the first touch of
/// memory takes long, and other threads have time for that while the trace is read.
#[derive(Drop)]
pub struct Ahead {
    pub(crate) opening: Opening,
    /// By actor.
    pub(crate) events: Vec<EventRoom>,
    pub(crate) spare: Spare,
}

/// Rooms for events, by actor, and for the records and the requests of one thread.
type GuessedRooms = (Vec<EventRoom>, Records, Requests);

/// As many, or as many as can be counted in 32 bits.
fn saturated(count: usize) -> u32 {
    u32::try_from(count).unwrap_or(u32::MAX)
}

/// Twice as many, and an eighth more of that.
fn twice_and_more(count: usize) -> usize {
    count.saturating_mul(2).saturating_add(count / 4)
}

/// Rooms for the events of each actor, of which the memory for as many was touched as requests and frees of the actor are likely. A line costs its thread two
/// events at most, but for a request for whole pages, and each page may cost it one more.
fn event_rooms(
    alloc: Global,
    profile: &Profile,
    likely: &Estimate,
) -> Result<Vec<EventRoom>, NoMemory> {
    let mut rooms = Vec::new(alloc);
    for lines in likely.by_actor.iter().take(profile.threads as usize + 1) {
        let bound = twice_and_more(*lines).saturating_add(profile.pages as usize);
        let blank = Event::Back { actor: 0, page: 0 };
        let room = EventRoom::try_new_touched(alloc, saturated(bound), saturated(*lines), blank)?;
        rooms.push(room).map_err(|_| NoMemory)?;
    }
    Ok(rooms)
}

/// Rooms for a text in which this is likely to stand. All records of a replay come together, but each thread has its own events; half of the names may be those of
/// one thread in one phase, whose requests are kept.
fn rooms_for(
    alloc: Global,
    profile: &Profile,
    likely: &Estimate,
) -> Result<GuessedRooms, NoMemory> {
    let Estimate { lines, names, .. } = *likely;
    let deeds = profile.pages as usize * profile.threads as usize;
    let bound = saturated(twice_and_more(lines).saturating_add(deeds));
    let events = event_rooms(alloc, profile, likely)?;
    let records = Records::try_new_touched(alloc, bound, saturated(lines), Record::Close)?;
    let blank = Request::of(0, None);
    let requests = Requests::try_new_touched(alloc, bound, saturated(names / 2), blank)?;
    Ok((events, records, requests))
}

impl Spare {
    /// No place for a name, and no room for requests.
    pub(crate) fn none(alloc: Global) -> Result<Spare, NoMemory> {
        let book = NameBook::try_new(alloc, 0)?;
        let records = Records::try_new(alloc, 0)?;
        let requests = Requests::try_new(alloc, 0)?;
        Ok(Spare {
            book,
            records,
            requests,
        })
    }
}

impl Ahead {
    /// What a replay of this text needs, by its header's profile and by a guess at the rest: each line makes about one record, a line that gives a name begins with
    /// an `a`, and an eighth more of each has room. The region and the names' table are made in one thread, and the rooms in another. Costs a look at 64 KB of the
    /// text, two passes over the words of the region, two writes for each likely line, and up to three for each likely name. NoMemory where memory was wanting.
    pub fn try_new<R: Threads + Sync>(
        rt: &R,
        alloc: Global,
        profile: Profile,
        text: &[u8],
    ) -> Result<Ahead, NoMemory>
        requires { IsValid profile }
        ensures { IfOk result (λ ahead. profile_of_opening ahead.opening ≡ profile) }
    {
        let theirs = alloc;
        let likely = Estimate::of(text);
        let limit = likely.names.saturating_add(likely.names / 8 + 1);
        let open = || -> Result<(Opening, NameBook), NoMemory>
            requires { IsValid profile }
            ensures profile { IfOk result (λ made. profile_of_opening made.0 ≡ profile) }
            ensures unnamed { IfOk result (λ made. (name : ℕ) → block_named made.1.names name ≡ None) }
        {
            let opening = Opening::try_new(theirs, profile)?;
            Ok((opening, NameBook::try_new(theirs, limit)?))
        };
        let (made, rooms) = join(rt, open, || rooms_for(alloc, &profile, &likely));
        let (opening, book) = made?;
        let (events, records, requests) = rooms?;
        Ok(Ahead {
            opening,
            events,
            spare: Spare {
                book,
                records,
                requests,
            },
        })
    }
}
