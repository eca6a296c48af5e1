//! What was done at a region before, as one thread tells it to another. The steps by which a thread made what it sends, as a block whose
//! name it sends, stand in its past; whoever takes the past makes its next steps behind all of these.
ghost use Rattle.std.specs.Prelude.{◌≡◌, []};
ghost use Rattle.pas_shared.specs.Ledgers.{actors_in};

use crate::desk::SharedDesk;
use crate::ledger::Ledger;
use crate::pass::{ActorSeat, SharedPass};
use crate::region::SharedRegion;
use crate::rule::{JoinsBoth, SplitsAll, SplitsLast};

/// The first steps of all actors at a region, up to a moment. It has no bytes, and may be handed from one thread to another.
#[derive(Drop)]
pub struct Past {
    pub(crate) ledger: Ledger,
    ghost nobody: { actors_in ledger ≡ [] },
}

impl Past {
    ghost use Rattle.pas_shared.specs.{Ruled.IsEarlier, Pasts.{told, IsPastOf}};

    /// A past in which no step stands. One load.
    pub fn nothing(region: &SharedRegion) -> Past
        ensures of { IsPastOf region.now result }
        ensures nothing { told result ≡ [] }
    {
        Past {
            ledger: Ledger::open(region),
        }
    }

    /// Both pasts: all that stands in one of them stands in it. Two loads.
    pub fn and(self, region: &SharedRegion, other: Past) -> Past
        requires of { IsPastOf region.now self }
        requires other { IsPastOf region.now other }
        ensures of { IsPastOf region.now result }
        ensures one { IsEarlier (told self) (told result) }
        ensures other { IsEarlier (told other) (told result) }
    {
        let Past { mut ledger } = self;
        let Past {
            ledger: Ledger { seat },
        } = other;
        let words = &region.table.shared;
        words.join_seat::<JoinsBoth>(&mut ledger.seat, seat);
        ledger.look(region);
        Past { ledger }
    }
}

impl ActorSeat {
    ghost use Rattle.pas_shared.specs.{Ruled.{view_in, IsEarlier}, Ledgers.{so_far, IsLedgerOf}, Pasts.HasOwn};

    /// Writes all steps so far into the ledger, and with them those of the actor. Five loads.
    fn look(&mut self, region: &SharedRegion, ledger: &mut Ledger)
        requires of { self.old.seat.table_id ≡ region.now.table.shared.table_id }
        requires ledger { IsLedgerOf region.now ledger.old }
        requires nobody { actors_in ledger.old ≡ [] }
        ensures same { self.new ≡ self.old }
        ensures ledger { IsLedgerOf region.now ledger.new }
        ensures nobody { actors_in ledger.new ≡ [] }
        ensures earlier { IsEarlier (so_far ledger.old) (so_far ledger.new) }
        ensures own { HasOwn self.old.actor (view_in self.old.seat.me.0) (so_far ledger.new) }
    {
        let words = &region.table.shared;
        let own = words.split_seat::<SplitsAll>(&mut self.seat);
        words.join_seat::<JoinsBoth>(&mut ledger.seat, own);
        ledger.look(region);
        let own = words.split_seat::<SplitsLast>(&mut ledger.seat);
        words.join_seat::<JoinsBoth>(&mut self.seat, own);
    }
}

impl SharedPass {
    ghost use Rattle.pas_shared.specs.{Ruled.IsEarlier, Passes.{IsPassOf, seat_of, view_of}, Pasts.{told, IsPastOf, HasOwn}};

    /// A past that has all steps which the actor made so far. Six loads.
    pub fn past(&mut self, region: &SharedRegion) -> Past
        requires of { IsPassOf region.now self.old }
        ensures same { self.new ≡ self.old }
        ensures of { IsPastOf region.now result }
        ensures own { HasOwn (seat_of self.old).actor (view_of self.old) (told result) }
    {
        let nothing = Past::nothing(region);
        self.after(region, nothing)
    }

    /// Takes a past, and gives one that goes on from it and has all steps which the actor made so far. What the actor does from now on
    /// stands behind all of these. Five loads.
    pub fn after(&mut self, region: &SharedRegion, past: Past) -> Past
        requires of { IsPassOf region.now self.old }
        requires past { IsPastOf region.now past }
        ensures same { self.new ≡ self.old }
        ensures of { IsPastOf region.now result }
        ensures earlier { IsEarlier (told past) (told result) }
        ensures own { HasOwn (seat_of self.old).actor (view_of self.old) (told result) }
    {
        let Past { mut ledger } = past;
        self.place.look(region, &mut ledger);
        Past { ledger }
    }
}

impl<'a> SharedDesk<'a> {
    ghost use Rattle.pas_shared.specs.{Ruled.IsEarlier, Passes.{seat_of, view_of}, Pasts.{told, IsPastOf, HasOwn}};

    /// As `SharedPass::past`.
    pub fn past(&mut self) -> Past
        ensures region { self.new.region ≡ self.old.region }
        ensures pass { self.new.pass ≡ self.old.pass }
        ensures of { IsPastOf self.old.region.now result }
        ensures own { HasOwn (seat_of self.old.pass).actor (view_of self.old.pass) (told result) }
    {
        self.pass.past(self.region)
    }

    /// As `SharedPass::after`.
    pub fn after(&mut self, past: Past) -> Past
        requires past { IsPastOf self.old.region.now past }
        ensures region { self.new.region ≡ self.old.region }
        ensures pass { self.new.pass ≡ self.old.pass }
        ensures of { IsPastOf self.old.region.now result }
        ensures earlier { IsEarlier (told past) (told result) }
        ensures own { HasOwn (seat_of self.old.pass).actor (view_of self.old.pass) (told result) }
    {
        self.pass.after(self.region, past)
    }
}

/// Asks of a type that its values may be handed from one thread to another.
fn asks_send<T: Send>() {}

/// A past may be.
fn a_past_is_sent() {
    asks_send::<Past>();
}
