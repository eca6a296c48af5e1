//! A ledger of the steps of all actors. Whoever has all passes in hand, so that nobody sits at the region, can settle it: then it has all steps so far, and those that
//! come later stand behind them.
ghost use Rattle.std.specs.Prelude.{◌≡◌, []};
ghost use Rattle.pas_shared.specs.{Ruled.{looks_in, parts_in}, declared.rule.Roster.TheVariants.Settled};

use crate::bench::Bench;
use crate::pass::{ActorSeat, SharedPass};
use crate::region::SharedRegion;
use crate::rule::{Arrives, JoinsBoth, Looks, SplitsAll, SplitsLast, TableSeat};
use pas_profile::Profile;
use pas_steps::Notes;

/// The first steps of all actors at a region, up to the last look, and the actors that it took in since. It has no bytes.
#[derive(Drop)]
pub struct Ledger {
    pub(crate) seat: TableSeat,
    ghost settled: { seat.me ≡ (Settled (looks_in seat.me.0) (parts_in seat.me.0), []) },
}

/// What is left of a pass while a ledger has its actor.
#[derive(Drop)]
pub struct Rest {
    pub(crate) seat: TableSeat,
    pub(crate) actor: u8,
    pub(crate) profile: Profile,
    pub(crate) notes: Notes,
}

impl Ledger {
    ghost use Rattle.std.specs.Prelude.{List, ◌∷◌, ◌++◌};
    ghost use Rattle.pas_shared.specs.{Ruled.{bases_in, HasAllOf, IsEarlier, AreEarlier}, Benches.{rows_on, IsBenchOf}, Passes.IsPassOf, Ledgers.so_far};
    ghost use Rattle.pas_shared.specs.{Ledgers.{looks_of, actors_in, part_of, IsLedgerOf, IsSameLedger, IsRestOf}, declared.rule.Part.Part};
    ghost use Rattle.pas_shared.specs.declared.pass.SharedPass.{SharedPass as ThePass};

    /// A ledger of the region in which no step stands. One load.
    pub fn open(region: &SharedRegion) -> Ledger
        ensures of { IsLedgerOf region.now result }
        ensures nothing { so_far result ≡ [] }
        ensures nobody { actors_in result ≡ [] }
    {
        Ledger {
            seat: region.table.shared.load_new_seat::<Arrives>(0).1,
        }
    }

    /// Takes the actor of the pass in. Two loads.
    pub fn take_in(&mut self, region: &SharedRegion, pass: SharedPass) -> Rest
        requires of { IsLedgerOf region.now self.old }
        requires pass { IsPassOf region.now pass }
        ensures same { IsSameLedger self.old self.new }
        ensures rest { IsRestOf pass result }
        ensures taken { actors_in self.new ≡ part_of pass ∷ actors_in self.old }
    {
        let SharedPass {
            place,
            profile,
            notes,
        } = pass;
        let ActorSeat { mut seat, actor } = place;
        let own = region.table.shared.split_seat::<SplitsAll>(&mut seat);
        region
            .table
            .shared
            .join_seat::<JoinsBoth>(&mut self.seat, own);
        Rest {
            seat,
            actor,
            profile,
            notes,
        }
    }

    /// Writes down all steps so far: those of the actors that were taken in are all among them, and those that stand there already are the first. One load.
    pub fn look(&mut self, region: &SharedRegion)
        requires of { IsLedgerOf region.now self.old }
        ensures of { IsLedgerOf region.now self.new }
        ensures actors { actors_in self.new ≡ actors_in self.old }
        ensures earlier { IsEarlier (so_far self.old) (so_far self.new) }
        ensures each { AreEarlier (looks_of self.old) (so_far self.new) }
        ensures all { HasAllOf (actors_in self.old) (so_far self.new) }
    {
        region.table.shared.load::<Looks>(&mut self.seat, 0);
    }

    /// Takes over what a bench saw on which nobody sits: the steps so far at its last look are among those of the next look here. What its actors did since is lost, so
    /// it is for a bench that looked after their last step. One load.
    pub fn hear(&mut self, region: &SharedRegion, bench: Bench)
        requires of { IsLedgerOf region.now self.old }
        requires bench { IsBenchOf region.now bench }
        ensures of { IsLedgerOf region.now self.new }
        ensures actors { actors_in self.new ≡ actors_in self.old }
        ensures heard { looks_of self.new ≡ looks_of self.old ++ bases_in (rows_on bench) }
    {
        let Bench { seat } = bench;
        region
            .table
            .shared
            .join_seat::<JoinsBoth>(&mut self.seat, seat);
    }

    /// Gives the actor that was taken in last its pass back, as it was. Two loads.
    pub fn give_back(&mut self, region: &SharedRegion, rest: Rest) -> SharedPass
        requires of { IsLedgerOf region.now self.old }
        requires last { (pass : ThePass) × (more : List Part) × IsPassOf region.now pass × IsRestOf pass rest × (actors_in self.old ≡ part_of pass ∷ more) }
        ensures same { IsSameLedger self.old self.new }
        ensures back { (pass : ThePass) (more : List Part) → IsPassOf region.now pass → IsRestOf pass rest → actors_in self.old ≡ part_of pass ∷ more → (result ≡ pass) × (actors_in self.new ≡ more) }
    {
        let Rest {
            mut seat,
            actor,
            profile,
            notes,
        } = rest;
        let own = region.table.shared.split_seat::<SplitsLast>(&mut self.seat);
        region.table.shared.join_seat::<JoinsBoth>(&mut seat, own);
        SharedPass {
            place: ActorSeat { seat, actor },
            profile,
            notes,
        }
    }
}
