//! The passes of the actors.
ghost use Rattle.std.specs.Prelude.{◌≡◌, ◌≤◌, ◌+◌, length};
ghost use Rattle.pas_steps.specs.Noted.{events_noted, room_of_notes};

use pas_profile::{Event, EventRoom};
use pas_steps::{Notes, Step};

/// What an actor keeps while it isn't at the region: what it noted of its own steps, and how many of its events were forgotten. The room
/// was made for these too.
#[derive(Drop)]
pub struct PlainPass {
    actor: u8,
    notes: Notes,
    forgotten: u32,
    ghost within: { forgotten + length (events_noted notes) ≤ room_of_notes notes },
}

impl PlainPass {
    ghost use Rattle.pas_steps.specs.{Events.wants, Ranges.IsRanged, Views.or_zero, Noted.IsNoted};
    ghost use Rattle.pas_plain.specs.Plain.{pass_for, actor_of, events_shown, forgotten_by, spare_in, count_of_pass, epoch_known, Forgets, CountsMore};

    /// The pass of an actor that made no step.
    pub(crate) fn new(actor: u8, room: EventRoom) -> PlainPass
        ensures { result ≡ pass_for actor room }
    {
        PlainPass {
            actor,
            notes: Notes::new(room),
            forgotten: 0,
        }
    }

    /// The actor.
    #[inline]
    pub fn actor(&self) -> u8
        ensures { result ≡ actor_of self.now }
    {
        self.actor
    }

    /// The number of steps made, which stays at 2^64 - 1 once it is there.
    #[inline]
    pub fn count(&self) -> u64
        ensures { result ≡ count_of_pass self.now }
    {
        self.notes.count()
    }

    /// All events made, in order, but for those that were forgotten.
    #[inline]
    pub fn shown(&self) -> &[Event]
        ensures { result.now ≡ events_shown self.now }
    {
        self.notes.shown()
    }

    /// For how many more events there is room.
    pub(crate) fn spare(&self) -> u32
        ensures { result ≡ spare_in self.now }
    {
        self.notes.spare() - self.forgotten
    }

    /// Forgets the events, so that the room is empty.
    #[inline(always)]
    pub(crate) fn forget(&mut self)
        ensures { Forgets self.old self.new }
    {
        self.forgotten += self.notes.forget();
    }

    /// The newest epoch that the actor read, 0 where it read none.
    #[inline]
    pub(crate) fn epoch(&self) -> u64
        ensures { result ≡ or_zero (epoch_known self.now) }
    {
        self.notes.epoch()
    }

    /// Counts steps that made no event and read no epoch.
    #[inline(always)]
    pub(crate) fn count_more(&mut self, steps: u64)
        ensures { CountsMore steps self.old self.new }
    {
        self.notes.count_more(steps);
    }

    /// Notes a step that the actor made, and its event.
    #[inline(always)]
    pub(crate) fn note(&mut self, step: Step, answer: u64)
        requires ranged { IsRanged step }
        requires room { wants step ≤ spare_in self.old }
        ensures actor { actor_of self.new ≡ actor_of self.old }
        ensures forgotten { forgotten_by self.new ≡ forgotten_by self.old }
        ensures noted { IsNoted self.old.notes self.new.notes (actor_of self.old) step answer }
    {
        self.notes.note(self.actor, step, answer);
    }
}
