//! What an actor notes of its own steps.
ghost use Rattle.std.specs.{Prelude.{◌≡◌, ◌≤◌, ◌+◌, ◌++◌, ◌<◌, ◌^◌, [], length}, Option.option_to_list};
ghost use Rattle.pas_profile.specs.Rooms.{shown, size_of_room};
ghost use Rattle.pas_steps.specs.Views.{epoch_after};

use crate::effect::event_of;
use crate::step::Step;
use pas_profile::{Event, EventRoom, Word};

/// An actor's events, in a room that was made for them, the number of its steps (which stays at 2^64 - 1 once it is there), and the
/// newest epoch that it read. So it never needs the list of its steps.
#[derive(Drop)]
pub struct Notes {
    room: EventRoom,
    count: u64,
    epoch: Option<u64>,
}

/// Adds the event, if there is one.
#[inline]
fn record(room: &mut EventRoom, event: Option<Event>)
    requires { length (shown room.old) + length (option_to_list event) ≤ size_of_room room.old }
    ensures added { shown room.new ≡ shown room.old ++ option_to_list event }
    ensures size { size_of_room room.new ≡ size_of_room room.old }
{
    if let Some(event) = event {
        room.push(event);
    }
}

/// Keeps the epoch that the step read or raised. No other step writes it.
#[inline(always)]
fn learn(epoch: &mut Option<u64>, step: Step, answer: u64)
    ensures { epoch.new ≡ epoch_after step answer epoch.old }
{
    match step {
        Step::Look { word: Word::Epoch } => *epoch = Some(answer),
        Step::Tick { epoch: raised } => *epoch = Some(answer.max(raised)),
        Step::Look { .. } | Step::Deed { .. } | Step::Back { .. } | Step::Take { .. } => {}
        Step::Put { .. } | Step::Give { .. } | Step::End { .. } | Step::EndSized { .. } => {}
        Step::TakeRight { .. } | Step::Offer { .. } | Step::Park { .. } | Step::Unpark { .. } => {}
        Step::Stamp { .. } | Step::Hint { .. } | Step::Unback { .. } | Step::Unhint { .. } => {}
    }
}

impl Notes {
    ghost use Rattle.std.specs.Prelude.{◌-◌, min};
    ghost use Rattle.pas_steps.specs.{Events.wants, Ranges.IsRanged, Views.or_zero, Noted.{notes_for, IsNoted, events_noted, room_of_notes, count_of_notes}};
    ghost use Rattle.pas_steps.specs.Noted.{epoch_noted};

    /// Those of an actor that made no step.
    pub fn new(room: EventRoom) -> Notes
        ensures { result ≡ notes_for room }
    {
        Notes {
            room,
            count: 0,
            epoch: None,
        }
    }

    /// The number of steps made, which stays at 2^64 - 1 once it is there.
    #[inline]
    pub fn count(&self) -> u64
        ensures { result ≡ count_of_notes self.now }
    {
        self.count
    }

    /// The events in the room, the oldest first: all that were made since they were last forgotten.
    #[inline]
    pub fn shown(&self) -> &[Event]
        ensures { result.now ≡ events_noted self.now }
    {
        self.room.as_slice()
    }

    /// For how many more events there is room.
    #[inline]
    pub fn spare(&self) -> u32
        ensures { result + length (events_noted self.now) ≡ room_of_notes self.now }
    {
        self.room.spare()
    }

    /// The newest epoch that the actor read, 0 where it read none.
    #[inline]
    pub fn epoch(&self) -> u64
        ensures { result ≡ or_zero (epoch_noted self.now) }
    {
        match self.epoch {
            Some(epoch) => epoch,
            None => 0,
        }
    }

    /// Empties the room, and says how many events it held.
    #[inline]
    pub fn forget(&mut self) -> u32
        ensures events { result ≡ length (events_noted self.old) }
        ensures empty { events_noted self.new ≡ [] }
        ensures room { room_of_notes self.new ≡ room_of_notes self.old }
        ensures count { count_of_notes self.new ≡ count_of_notes self.old }
        ensures epoch { epoch_noted self.new ≡ epoch_noted self.old }
    {
        let events = self.room.as_slice().len() as u32;
        self.room.clear();
        events
    }

    /// Counts steps that made no event and read no epoch.
    #[inline(always)]
    pub fn count_more(&mut self, steps: u64)
        ensures count { count_of_notes self.new ≡ min (count_of_notes self.old + steps) (2 ^ 64 - 1) }
        ensures shown { events_noted self.new ≡ events_noted self.old }
        ensures room { room_of_notes self.new ≡ room_of_notes self.old }
        ensures epoch { epoch_noted self.new ≡ epoch_noted self.old }
    {
        self.count = self.count.saturating_add(steps);
    }

    /// Notes a step that the actor made, and its event. The caller leaves room for the event.
    #[inline(always)]
    pub fn note(&mut self, actor: u8, step: Step, answer: u64)
        requires ranged { IsRanged step }
        requires room { length (events_noted self.old) + wants step ≤ room_of_notes self.old }
        ensures { IsNoted self.old self.new actor step answer }
    {
        let event = event_of(actor, self.epoch(), step, answer);
        record(&mut self.room, event);
        self.count = self.count.saturating_add(1);
        learn(&mut self.epoch, step, answer);
    }
}
