//! The passes of the actors.
ghost use Rattle.std.specs.Prelude.{◌≡◌, ◌+◌, ◌≤◌, [], ◌∷◌, length};
ghost use Rattle.pas_profile.specs.Profiles.{IsValid};
ghost use Rattle.pas_steps.specs.Noted.{AreNotesOf, events_noted, count_of_notes, room_of_notes};
ghost use Rattle.pas_shared.specs.Ruled.{alone, view_in};

use crate::exchange::exchange;
use crate::region::SharedRegion;
use crate::rule::TableSeat;
use pas_profile::{Event, Profile};
use pas_steps::effect::target;
use pas_steps::{Notes, Step};
use std::marker::Brand;

/// A seat of the table that names one actor.
#[derive(Drop)]
pub struct ActorSeat {
    pub(crate) seat: TableSeat,
    pub(crate) actor: u8,
    ghost named: { seat.me ≡ (alone actor (view_in seat.me.0), []) },
}

/// An actor's leave to make steps at the region, and what it noted of those that it made. It can't be copied, so an actor makes its
/// steps one after the other.
#[derive(Drop)]
pub struct SharedPass {
    pub(crate) place: ActorSeat,
    pub(crate) profile: Profile,
    pub(crate) notes: Notes,
    ghost valid: { IsValid profile },
    ghost within: { place.actor ≤ profile.threads },
    ghost noted: { AreNotesOf place.actor (view_in place.seat.me.0) notes },
}

impl ActorSeat {
    ghost use Rattle.pas_steps.specs.{Ranges.IsRanged, Views.epoch_of, Desks.made, Agreement.Agrees};
    ghost use Rattle.pas_shared.specs.Ruled.{IsAskedOf};

    /// Makes a step at the region, for an actor that knows this epoch.
    #[inline(always)]
    fn make(&mut self, region: &SharedRegion, epoch: u64, step: Step) -> u64
        requires of { self.old.seat.table_id ≡ region.now.table.shared.table_id }
        requires step { IsAskedOf region.now.profile self.old.actor (view_in self.old.seat.me.0) step }
        requires ranged { IsRanged step }
        requires epoch { epoch ≡ epoch_of (view_in self.old.seat.me.0) }
        ensures same { (self.new.seat.table_id ≡ self.old.seat.table_id) × (self.new.actor ≡ self.old.actor) }
        ensures view { view_in self.new.seat.me.0 ≡ made step result ∷ view_in self.old.seat.me.0 }
        ensures agrees { Agrees region.now.profile (view_in self.old.seat.me.0) step result }
    {
        let at = region.layout.index(target(step));
        exchange::<Brand>(
            &region.table.shared,
            &mut self.seat,
            self.actor,
            at,
            epoch,
            step,
        )
    }
}

impl SharedPass {
    ghost use Rattle.pas_steps.specs.{Allowed.{IsStepOf, Allowed}, Agreement.Agrees, Events.wants, Desks.made};
    ghost use Rattle.pas_shared.specs.Passes.{IsPassOf, seat_of, view_of};

    /// The actor.
    #[inline]
    pub fn actor(&self) -> u8
        ensures { result ≡ (seat_of self.now).actor }
    {
        self.place.actor
    }

    /// The profile of the region.
    #[inline]
    pub fn profile(&self) -> &Profile
        ensures { result.now ≡ (seat_of self.now).profile }
    {
        &self.profile
    }

    /// The number of steps made, which stays at 2^64 - 1 once it is there.
    #[inline]
    pub fn count(&self) -> u64
        ensures { result ≡ count_of_notes self.now.notes }
    {
        self.notes.count()
    }

    /// All events made, the oldest first.
    #[inline]
    pub fn shown(&self) -> &[Event]
        ensures { result.now ≡ events_noted self.now.notes }
    {
        self.notes.shown()
    }

    /// Makes a step at the region, whatever other actors do meanwhile, and notes it.
    #[inline(always)]
    pub(crate) fn make(&mut self, region: &SharedRegion, step: Step) -> u64
        requires of { IsPassOf region.now self.old }
        requires step { IsStepOf (seat_of self.old).profile step }
        requires allowed { Allowed (seat_of self.old).profile (view_of self.old) step }
        requires room { length (events_noted self.old.notes) + wants step ≤ (seat_of self.old).room }
        ensures of { IsPassOf region.now self.new }
        ensures seat { seat_of self.new ≡ seat_of self.old }
        ensures view { view_of self.new ≡ made step result ∷ view_of self.old }
        ensures agrees { Agrees (seat_of self.old).profile (view_of self.old) step result }
    {
        let answer = self.place.make(region, self.notes.epoch(), step);
        self.notes.note(self.place.actor, step, answer);
        answer
    }
}
