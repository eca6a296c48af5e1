//! The desk of an actor at a shared region.
ghost use Rattle.std.specs.Prelude.{◌≡◌};

use crate::pass::SharedPass;
use crate::region::SharedRegion;
use pas_profile::{Event, Profile};
use pas_steps::{Desk, Step};

/// The place of one actor at a region at which others may sit too.
#[derive(Drop)]
pub struct SharedDesk<'a> {
    pub(crate) region: &'a SharedRegion,
    pub(crate) pass: SharedPass,
    ghost fits: { (pass.place.seat.table_id ≡ region.now.table.shared.table_id) × (pass.profile ≡ region.now.profile) },
}

impl SharedRegion {
    ghost use Rattle.pas_shared.specs.Passes.{IsPassOf};

    /// Seats the actor of this pass, which is one of this region, at the region.
    #[inline]
    pub fn desk(&self, pass: SharedPass) -> SharedDesk<'_>
        requires { IsPassOf self.now pass }
        ensures region { result.region.now ≡ self.now }
        ensures pass { result.pass ≡ pass }
    {
        SharedDesk { region: self, pass }
    }
}

impl<'a> SharedDesk<'a> {
    ghost use Rattle.pas_shared.specs.Passes.{IsPassOf};

    /// Lets the actor rise.
    #[inline]
    pub fn into_pass(self) -> SharedPass
        ensures pass { result ≡ self.entry.pass }
        ensures of { IsPassOf self.entry.region.now result }
    {
        let SharedDesk { region: _, pass } = self;
        pass
    }
}

impl<'a> Desk for SharedDesk<'a> {
    ghost use Rattle.std.{specs.Prelude.{◌+◌, ◌-◌, ◌^◌, false, [], length, min, reverse}, proofs.{Common.{refl, ap, sym, ◌∙◌}, lemmas.Bool.false≢true}};
    ghost use Rattle.std.proofs.{lemmas.List.length-reverse, Math.Nat.sub-add_cancel};
    ghost use Rattle.pas_steps.specs.{Events.events_of, Noted.{events_noted, room_of_notes, count_of_notes}};
    ghost use Rattle.pas_shared.specs.Passes.{standing_of, seat_of};

    type Home = SharedRegion;

    ghost home = { λ desk. desk.region.now };

    ghost forgotten = { λ region. 0 };

    ghost tells = { false };

    ghost standing = { λ desk. standing_of desk };

    ghost spare_of = { λ desk. room_of_notes desk.pass.notes - length (events_noted desk.pass.notes) };

    ghost shown_of = { λ desk. events_noted desk.pass.notes };

    ghost count_of = { λ desk. count_of_notes desk.pass.notes };

    #[inline]
    fn actor(&self) -> u8 {
        self.pass.actor()
    }

    #[inline]
    fn profile(&self) -> &Profile {
        self.pass.profile()
    }

    #[inline]
    fn count(&self) -> u64 {
        self.pass.count()
    }

    #[inline]
    fn shown(&self) -> &[Event] {
        self.pass.shown()
    }

    #[inline(always)]
    fn make(&mut self, step: Step) -> u64 {
        self.pass.make(self.region, step)
    }

    ghost valid = { λ desk. desk.pass.valid };

    ghost limited = { λ desk. desk.pass.notes.room.limited };

    ghost shows = { λ desk v l stood. record { gone = []; many = refl; all = desk.pass.noted.shown ∙ ap (λ v. reverse (events_of (seat_of desk.pass).actor v)) stood } };

    ghost spares = { λ desk v l stood. ap (λ n. room_of_notes desk.pass.notes - length (events_noted desk.pass.notes) + n) (sym (ap length (desk.pass.noted.shown ∙ ap (λ v. reverse (events_of (seat_of desk.pass).actor v)) stood) ∙ length-reverse (events_of (seat_of desk.pass).actor v))) ∙ sub-add_cancel {n = room_of_notes desk.pass.notes} {m = length (events_noted desk.pass.notes)} desk.pass.notes.room.within };

    ghost counts = { λ desk v l stood. desk.pass.noted.count ∙ ap (λ v. min (length v) (2 ^ 64 - 1)) stood };

    ghost told = { λ desk v l tells stood. absurd (false≢true tells) };

    ghost told_part = { λ desk v l tells stood. absurd (false≢true tells) };
}
