//! The desk of an actor at a plain region.
ghost use Rattle.std.specs.Prelude.{◌≡◌};
ghost use Rattle.pas_steps.specs.{Lists.{Whole, part}, Views.View};
ghost use Rattle.pas_plain.specs.{Plain.{profile_of, actor_of, RegionStands, PassStands}, Seats.{region_of, pass_of, IsPassOf, DeskStands}};

use crate::pass::PlainPass;
use crate::region::PlainRegion;
use pas_profile::{Block, Event, Name, Profile, Word};
use pas_steps::{Desk, Step};
use std::mem::{replace, swap};

/// The place of one actor at a region at which no other actor works.
#[derive(Drop)]
pub struct PlainDesk {
    region: PlainRegion,
    pass: PlainPass,
}

impl PlainRegion {
    /// Seats the actor of this pass, which is one of this region, at the region.
    #[inline]
    pub fn desk(self, pass: PlainPass) -> PlainDesk
        requires { IsPassOf self pass }
        ensures region { region_of result ≡ self }
        ensures pass { pass_of result ≡ pass }
        ensures stands { (l : Whole) → RegionStands self l → PassStands (profile_of self) pass l → DeskStands result (part (actor_of pass) l) l }
    {
        PlainDesk { region: self, pass }
    }
}

impl PlainDesk {
    ghost use Rattle.std.specs.Prelude.{◌≤◌};
    ghost use Rattle.pas_profile.specs.Profiles.{IsWordOf};
    ghost use Rattle.pas_steps.specs.{Effects.target, Events.wants, Ranges.IsRanged, declared.step.Step.Step as TheStep};
    ghost use Rattle.pas_plain.specs.{Plain.{spare_in, count_of_pass, Forgets}, Seats.{IsChanged, seat_of}};

    /// Lets the actor rise: the region, and the actor's pass.
    #[inline]
    pub fn into_parts(self) -> (PlainRegion, PlainPass)
        ensures region { result.0 ≡ region_of self }
        ensures pass { result.1 ≡ pass_of self }
        ensures region_stands { (v : View) (l : Whole) → DeskStands self v l → RegionStands result.0 l }
        ensures pass_stands { (v : View) (l : Whole) → DeskStands self v l → PassStands (profile_of result.0) result.1 l }
    {
        (self.region, self.pass)
    }

    /// Lets the actor of this pass, which is one of the region, sit down in the place of the one that sits here. The pass of the
    /// one that rises. The region doesn't move.
    #[inline(always)]
    pub fn replace(&mut self, pass: PlainPass) -> PlainPass
        requires { IsPassOf (region_of self.old) pass }
        ensures region { region_of self.new ≡ region_of self.old }
        ensures pass { pass_of self.new ≡ pass }
        ensures risen { result ≡ pass_of self.old }
    {
        replace(&mut self.pass, pass)
    }

    /// Exchanges the pass of the actor that sits here for this one, in place. The region doesn't move.
    pub(crate) fn exchange_pass(&mut self, pass: &mut PlainPass)
        ensures region { region_of self.new ≡ region_of self.old }
        ensures pass { pass_of self.new ≡ pass.old }
        ensures risen { pass.new ≡ pass_of self.old }
    {
        swap(&mut self.pass, pass);
    }

    /// Forgets the events that are shown, so that the actor's room is empty. There is room for as many more as before, and the desk stands
    /// for all for which it stood.
    #[inline(always)]
    pub fn forget(&mut self)
        ensures region { region_of self.new ≡ region_of self.old }
        ensures pass { Forgets (pass_of self.old) (pass_of self.new) }
        ensures seat { seat_of self.new ≡ seat_of self.old }
        ensures count { count_of_pass (pass_of self.new) ≡ count_of_pass (pass_of self.old) }
        ensures stands { (v : View) (l : Whole) → DeskStands self.old v l → DeskStands self.new v l }
    {
        self.pass.forget();
    }

    #[inline(always)]
    fn change(&mut self, step: Step) -> u64
        requires of_region { IsWordOf (profile_of self.old.region) (target step) }
        requires ranged { IsRanged step }
        requires room { wants step ≤ spare_in self.old.pass }
        ensures { IsChanged self.old self.new step result }
    {
        let answer = self.region.exchange(self.pass.epoch(), step);
        self.pass.note(step, answer);
        answer
    }

    /// A look changes no word, so that it needs no exchange.
    #[inline(always)]
    fn read(&mut self, word: Word) -> u64
        requires of_region { IsWordOf (profile_of self.old.region) word }
        ensures { IsChanged self.old self.new (TheStep.Look word) result }
    {
        let answer = self.region.word(word);
        self.pass.note(Step::Look { word }, answer);
        answer
    }
}

impl Desk for PlainDesk {
    ghost use Rattle.std.{specs.Prelude.{◌-◌, ◌^◌, true, length, min}, proofs.Common.{ap, ◌∙◌}};
    ghost use Rattle.pas_plain.specs.{Plain.{events_shown, forgotten_by, spare_in, count_of_pass}, Seats.{standing_of, shows_rest, spare_of_room}};

    type Home = u32;

    ghost home = { λ desk. forgotten_by desk.pass };

    ghost forgotten = { λ n. n };

    ghost tells = { true };

    ghost standing = { standing_of };

    ghost spare_of = { λ desk. spare_in desk.pass };

    ghost shown_of = { λ desk. events_shown desk.pass };

    ghost count_of = { λ desk. count_of_pass desk.pass };

    #[inline]
    fn actor(&self) -> u8 {
        self.pass.actor()
    }

    #[inline]
    fn profile(&self) -> &Profile {
        self.region.profile()
    }

    #[inline]
    fn count(&self) -> u64 {
        self.pass.count()
    }

    #[inline]
    fn shown(&self) -> &[Event] {
        self.pass.shown()
    }

    #[inline(always)]
    fn make(&mut self, step: Step) -> u64 {
        self.change(step)
    }

    #[inline(always)]
    fn look(&mut self, word: Word) -> u64 {
        self.read(word)
    }

    #[inline(always)]
    fn give(&mut self, block: Block) -> u64 {
        self.change(Step::Give { block })
    }

    #[inline(always)]
    fn end(&mut self, name: Name, guess: u32) -> u64 {
        self.change(Step::End { name, guess })
    }

    #[inline(always)]
    fn peek(&self, word: Word) -> Option<u64> {
        Some(self.region.word(word))
    }

    #[inline]
    fn tell(&mut self, count: u64) -> bool {
        self.pass.count_more(count);
        true
    }

    #[inline]
    fn short_pages(&self, grains: u16, align: u16, block: u32) -> u64 {
        self.region.short_pages(grains, align, block)
    }

    fn note_short(&mut self, grains: u16, align: u16, page: u32) {
        self.region.note_short(grains, align, page);
    }

    ghost valid = { λ desk. desk.region.valid };

    ghost limited = { λ desk. desk.pass.notes.room.limited };

    ghost shows = { shows_rest };

    ghost spares = { spare_of_room };

    ghost counts = { λ desk v l stood. stood.pass.count ∙ ap (λ v. min (length v) (2 ^ 64 - 1)) stood.part_is };

    ghost told = { λ desk v l tells stood. stood.region.legal };

    ghost told_part = { λ desk v l tells stood. stood.part_is };
}
