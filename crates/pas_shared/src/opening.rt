//! How a region is opened for all its actors.
ghost use Rattle.std.specs.Prelude.{◌≡◌, ◌+◌, ◌<◌, ◌≤◌, [], All, IfOk, length, vec_len};
ghost use Rattle.pas_profile.specs.{Profiles.IsValid, Rooms.shown};
ghost use Rattle.pas_shared.specs.{Ruled.alone, Passes.{profile_of, profile_of_opening, IsPassOf, IsFresh, AreFresh, AreFreshOf}};
ghost use Rattle.pas_shared.specs.declared.rule.Roster.TheVariants.{Unused};

use crate::pass::{ActorSeat, SharedPass};
use crate::region::{Opening, SharedRegion};
use crate::rule::{SplitsFirst, TableSeat, TableWords};
use atomic_table::Table;
use pas_profile::{EventRoom, Layout, NoMemory, Profile};
use pas_steps::{Notes, opening_words};
use std::alloc::Global;

/// A seat for the first actor that has none.
fn split(words: &TableWords, seat: &mut TableSeat, first: u8) -> TableSeat
    requires { (seat.old.table_id ≡ words.now.table_id) × (0 < words.now.table_id.words) × (seat.old.me ≡ (Unused first, [])) }
    ensures left { (seat.new.table_id ≡ words.now.table_id) × (seat.new.me ≡ (Unused (first + 1), [])) }
    ensures right { (result.table_id ≡ words.now.table_id) × (result.me ≡ (alone first [], [])) }
{
    let _ = first;
    words.split_seat::<SplitsFirst>(seat)
}

/// The pass of an actor that made no step.
fn fresh(
    words: &TableWords,
    seat: &mut TableSeat,
    profile: Profile,
    actor: u8,
    room: EventRoom,
) -> SharedPass
    requires place { (seat.old.table_id ≡ words.now.table_id) × (0 < words.now.table_id.words) × (seat.old.me ≡ (Unused actor, [])) }
    requires valid { IsValid profile }
    requires actor { actor ≤ profile.threads }
    requires empty { shown room ≡ [] }
    ensures left { (seat.new.table_id ≡ words.now.table_id) × (seat.new.me ≡ (Unused (actor + 1), [])) }
    ensures pass { IsFresh words.now.table_id profile actor room result }
{
    let seat = split(words, seat, actor);
    SharedPass {
        place: ActorSeat { seat, actor },
        profile,
        notes: Notes::new(room),
    }
}

/// A pass for each actor, from 0 on, with the rooms in their order.
fn deal(
    alloc: Global,
    words: &TableWords,
    seat: &mut TableSeat,
    profile: Profile,
    rooms: Vec<EventRoom>,
) -> Result<Vec<SharedPass>, NoMemory>
    requires place { (seat.old.table_id ≡ words.now.table_id) × (0 < words.now.table_id.words) × (seat.old.me ≡ (Unused 0, [])) }
    requires valid { IsValid profile }
    requires actors { vec_len rooms ≡ profile.threads + 1 }
    requires empty { All (λ room. shown room ≡ []) rooms.items }
    ensures { IfOk result (λ passes. AreFresh words.now.table_id profile 0 rooms.items passes.items) }
{
    let Ok(mut passes) = Vec::with_capacity(alloc, rooms.len()) else {
        return Err(NoMemory);
    };
    for room in rooms {
        let actor = passes.len() as u8;
        passes.push_reserved(fresh(words, seat, profile, actor, room));
    }
    Ok(passes)
}

impl Opening {
    /// A region that nobody used yet, and at which nobody has a seat. It costs two passes over the words, and refuses only where
    /// memory is wanting.
    pub fn try_new(alloc: Global, profile: Profile) -> Result<Opening, NoMemory>
        requires { IsValid profile }
        ensures { IfOk result (λ opening. profile_of_opening opening ≡ profile) }
    {
        let layout = Layout::new(&profile);
        let words = opening_words(alloc, &layout)?;
        let Ok((table, seat)) = Table::of_words(alloc, &words, &profile) else {
            return Err(NoMemory);
        };
        let region = SharedRegion {
            table,
            profile,
            layout,
            closed_words: words,
        };
        Ok(Opening { region, seat })
    }
}

impl SharedRegion {
    /// A region that nobody used yet, and the passes of its actors: that of the scavenger, which is actor 0, and those of the
    /// threads, each with the room at its number. It costs two passes over the words, and a load for each actor. It refuses only
    /// where memory is wanting.
    pub fn try_new(
        alloc: Global,
        profile: Profile,
        rooms: Vec<EventRoom>,
    ) -> Result<(SharedRegion, Vec<SharedPass>), NoMemory>
        requires valid { IsValid profile }
        requires actors { vec_len rooms ≡ profile.threads + 1 }
        requires empty { All (λ room. shown room ≡ []) rooms.items }
        ensures profile { IfOk result (λ opened. profile_of opened.0 ≡ profile) }
        ensures passes { IfOk result (λ opened. AreFreshOf opened.0 rooms.items opened.1.items) }
        ensures of { IfOk result (λ opened. All (IsPassOf opened.0) opened.1.items) }
    {
        SharedRegion::try_new_at(alloc, Opening::try_new(alloc, profile)?, rooms)
    }

    /// The region of the opening, and the passes of its actors, as `try_new` gives them. It costs a load for each actor, whatever
    /// the number of words. It refuses only where memory is wanting.
    pub fn try_new_at(
        alloc: Global,
        opening: Opening,
        rooms: Vec<EventRoom>,
    ) -> Result<(SharedRegion, Vec<SharedPass>), NoMemory>
        requires actors { vec_len rooms ≡ (profile_of_opening opening).threads + 1 }
        requires empty { All (λ room. shown room ≡ []) rooms.items }
        ensures profile { IfOk result (λ opened. profile_of opened.0 ≡ profile_of_opening opening) }
        ensures passes { IfOk result (λ opened. AreFreshOf opened.0 rooms.items opened.1.items) }
        ensures of { IfOk result (λ opened. All (IsPassOf opened.0) opened.1.items) }
    {
        let Opening { region, mut seat } = opening;
        let passes = deal(
            alloc,
            &region.table.shared,
            &mut seat,
            region.profile,
            rooms,
        )?;
        Ok((region, passes))
    }
}

/// Asks of a type that its values may be handed from one thread to another.
fn asks_send<T: Send>() {}

/// An opening may be.
fn an_opening_is_sent() {
    asks_send::<Opening>();
}
