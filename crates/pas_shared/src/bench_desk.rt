//! The desk of an actor of a bench.
ghost use Rattle.std.specs.Prelude.{◌≡◌, ◌∷◌, []};
ghost use Rattle.pas_shared.specs.Benches.{row_on, rows_on, IsBenchOf, SitsOn};

use crate::bench::{Bench, Member};
use crate::exchange::exchange;
use crate::region::SharedRegion;
use crate::rule::{Entry, Row};
use pas_profile::{Event, Profile};
use pas_steps::effect::target;
use pas_steps::{Desk, Step};
use std::marker::Brand;
use std::mem::replace;

/// An actor of a bench with one row. The other actors of the row stay where they are.
#[derive(Drop)]
pub struct BenchPlace {
    pub(crate) bench: Bench,
    pub(crate) member: Member,
    ghost one: { rows_on bench ≡ row_on bench ∷ [] },
    ghost sits: { SitsOn bench member },
}

/// Its place at the region.
#[derive(Drop)]
pub struct BenchDesk<'a> {
    pub(crate) region: &'a SharedRegion,
    pub(crate) place: BenchPlace,
    ghost of: { IsBenchOf region.now place.bench },
    ghost profiled: { place.member.profile ≡ region.now.profile },
}

/// What no step at a bench changes: the region, and the row but for the steps that it has since its base. No value of it is made.
pub struct BenchHome {
    pub region: SharedRegion,
    pub row: Row,
}

impl SharedRegion {
    ghost use Rattle.pas_shared.specs.Benches.{MaySitOn};

    /// Seats the member of the bench, which has one row and is of this region, at the region.
    #[inline]
    pub fn bench_desk(&self, bench: Bench, member: Member) -> BenchDesk<'_>
        requires { MaySitOn self.now bench member }
        ensures region { result.region.now ≡ self.now }
        ensures bench { result.place.bench ≡ bench }
        ensures member { result.place.member ≡ member }
    {
        BenchDesk {
            region: self,
            place: BenchPlace { bench, member },
        }
    }
}

impl BenchPlace {
    ghost use Rattle.std.specs.Prelude.{◌+◌, ◌≤◌, length};
    ghost use Rattle.pas_steps.specs.{Allowed.{IsStepOf, Allowed}, Agreement.Agrees, Events.wants, Desks.made, Noted.events_noted};
    ghost use Rattle.pas_shared.specs.{Ruled.row_with, Benches.{made_by, seat_of_member}};

    /// Makes a step at the region, whatever actors of other seats do meanwhile, and notes it.
    #[inline(always)]
    fn make(&mut self, region: &SharedRegion, step: Step) -> u64
        requires of { IsBenchOf region.now self.old.bench }
        requires profiled { self.old.member.profile ≡ region.now.profile }
        requires step { IsStepOf self.old.member.profile step }
        requires allowed { Allowed self.old.member.profile (made_by self.old.bench self.old.member) step }
        requires room { length (events_noted self.old.member.notes) + wants step ≤ (seat_of_member self.old.member).room }
        ensures of { IsBenchOf region.now self.new.bench }
        ensures seat { seat_of_member self.new.member ≡ seat_of_member self.old.member }
        ensures row { row_on self.new.bench ≡ row_with self.old.member.actor (made step result) (row_on self.old.bench) }
        ensures agrees { Agrees self.old.member.profile (made_by self.old.bench self.old.member) step result }
    {
        let at = region.layout.index(target(step));
        let epoch = self.member.notes.epoch();
        let answer = exchange::<Brand>(
            &region.table.shared,
            &mut self.bench.seat,
            self.member.actor,
            at,
            epoch,
            step,
        );
        self.member.notes.note(self.member.actor, step, answer);
        answer
    }

    #[inline(always)]
    fn replace(&mut self, member: Member) -> Member
        requires { SitsOn self.old.bench member }
        ensures bench { self.new.bench ≡ self.old.bench }
        ensures member { self.new.member ≡ member }
        ensures risen { result ≡ self.old.member }
    {
        replace(&mut self.member, member)
    }
}

impl<'a> BenchDesk<'a> {
    ghost use Rattle.pas_shared.specs.Benches.{MaySitOn};

    /// Lets the actor rise.
    #[inline]
    pub fn into_parts(self) -> (Bench, Member)
        ensures bench { result.0 ≡ self.entry.place.bench }
        ensures member { result.1 ≡ self.entry.place.member }
    {
        let BenchDesk { region: _, place } = self;
        let BenchPlace { bench, member } = place;
        (bench, member)
    }

    /// Lets another member of the bench sit down in the place of the one that sits here, which rises.
    #[inline(always)]
    pub fn replace(&mut self, member: Member) -> Member
        requires { MaySitOn self.old.region.now self.old.place.bench member }
        ensures region { self.new.region.now ≡ self.old.region.now }
        ensures bench { self.new.place.bench ≡ self.old.place.bench }
        ensures member { self.new.place.member ≡ member }
        ensures risen { result ≡ self.old.place.member }
    {
        self.place.replace(member)
    }
}

impl<'a> Desk for BenchDesk<'a> {
    ghost use Rattle.std.{specs.Prelude.{◌+◌, ◌-◌, ◌^◌, false, [], length, min, reverse}, proofs.{Common.{refl, ap, sym, ◌∙◌}, lemmas.Bool.false≢true}};
    ghost use Rattle.std.proofs.{lemmas.List.length-reverse, Math.Nat.sub-add_cancel};
    ghost use Rattle.pas_steps.specs.{Events.events_of, Noted.{events_noted, room_of_notes, count_of_notes}};
    ghost use Rattle.pas_shared.specs.Benches.{home_of, standing_on};

    type Home = BenchHome;

    ghost home = { λ desk. home_of desk.region.now (row_on desk.place.bench) };

    ghost forgotten = { λ home. 0 };

    ghost tells = { false };

    ghost standing = { λ desk. standing_on desk.place.bench desk.place.member };

    ghost spare_of = { λ desk. room_of_notes desk.place.member.notes - length (events_noted desk.place.member.notes) };

    ghost shown_of = { λ desk. events_noted desk.place.member.notes };

    ghost count_of = { λ desk. count_of_notes desk.place.member.notes };

    #[inline]
    fn actor(&self) -> u8 {
        self.place.member.actor
    }

    #[inline]
    fn profile(&self) -> &Profile {
        &self.place.member.profile
    }

    #[inline]
    fn count(&self) -> u64 {
        self.place.member.notes.count()
    }

    #[inline]
    fn shown(&self) -> &[Event] {
        self.place.member.notes.shown()
    }

    #[inline(always)]
    fn make(&mut self, step: Step) -> u64 {
        self.place.make(self.region, step)
    }

    ghost valid = { λ desk. desk.place.member.valid };

    ghost limited = { λ desk. desk.place.member.notes.room.limited };

    ghost shows = { λ desk v l stood. record { gone = []; many = refl; all = desk.place.sits.noted.shown ∙ ap (λ v. reverse (events_of desk.place.member.actor v)) stood.0 } };

    ghost spares = { λ desk v l stood. ap (λ n. room_of_notes desk.place.member.notes - length (events_noted desk.place.member.notes) + n) (sym (ap length (desk.place.sits.noted.shown ∙ ap (λ v. reverse (events_of desk.place.member.actor v)) stood.0) ∙ length-reverse (events_of desk.place.member.actor v))) ∙ sub-add_cancel {n = room_of_notes desk.place.member.notes} {m = length (events_noted desk.place.member.notes)} desk.place.member.notes.room.within };

    ghost counts = { λ desk v l stood. desk.place.sits.noted.count ∙ ap (λ v. min (length v) (2 ^ 64 - 1)) stood.0 };

    ghost told = { λ desk v l tells stood. absurd (false≢true tells) };

    ghost told_part = { λ desk v l tells stood. absurd (false≢true tells) };
}
