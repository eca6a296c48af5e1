//! A desk between whose own steps another actor acts, for tests.
ghost use Rattle.std.specs.Prelude.{◌≡◌};
ghost use Rattle.pas_steps.specs.{Views.View, Lists.Whole};
ghost use Rattle.pas_plain.specs.{Seats.{region_of, pass_of}, Storms.{StormStands, MayStorm, seat_for}};

use crate::desk::PlainDesk;
use crate::pass::PlainPass;
use crate::region::PlainRegion;
use pas_profile::{Event, Profile};
use pas_steps::{Desk, Step};

/// For how many more events the foreign actor must have room, else it doesn't act: a flush makes at most 64, one for each name.
const LEAST_SPARE: u32 = 70;

/// What a foreign actor does between the own steps of a `StormDesk`. All that it has is a desk, so it makes only steps that its actor's
/// view allows.
pub trait Intruder {
    ghost use Rattle.std.specs.Prelude.{◌≡◌, ◌≤◌};
    ghost use Rattle.pas_steps.specs.{Clear.HasNothing, Desks.CanCall};
    ghost use Rattle.pas_plain.specs.Storms.{Acts};

    /// Acts before the own step of this number, from 1 on. The desk's actor has nothing and is clear, and is so again afterwards. There
    /// is room for at least 70 events.
    fn act<D: Desk>(&mut self, desk: &mut D, number: u64)
        requires nothing { CanCall (D.standing desk.old) HasNothing }
        requires room { 70 ≤ D.spare_of desk.old }
        ensures acts { Acts (D.standing desk.old) (D.standing desk.new) }
        ensures home { D.home desk.new ≡ D.home desk.old };
}

/// The desk of an actor at a plain region at which an intruder acts for another actor before each own step.
///
/// It doesn't tell the whole state: it stands for its actor's part of each legal list that ends in the region's words, whose parts of
/// both actors are those of their passes, and at whose end the foreign actor has nothing and is clear. Own steps are numbered from 1
/// on, and before each the intruder acts once, unless the foreign actor has room for fewer than 70 events.
#[derive(Drop)]
pub struct StormDesk<I> {
    desk: PlainDesk,
    foreign: PlainPass,
    intruder: I,
    number: u64,
}

impl PlainRegion {
    ghost use Rattle.pas_plain.specs.Plain.{spare_in};

    /// Seats the actor of the own pass, and lets the intruder act for that of the foreign pass before each of its steps. The two passes
    /// are of this region and of different actors, and the foreign actor has nothing and is clear.
    pub fn storm<I: Intruder>(self, own: PlainPass, foreign: PlainPass, intruder: I) -> StormDesk<I>
        requires { MayStorm self own foreign }
        ensures seat { (⟦<StormDesk<I> as Desk>⟧.standing result).seat ≡ seat_for self own }
        ensures spare { ⟦<StormDesk<I> as Desk>⟧.spare_of result ≡ spare_in own }
        ensures stands { (v : View) (w l : Whole) → StormStands self own foreign v w → (⟦<StormDesk<I> as Desk>⟧.standing result).stands v l }
    {
        let desk = self.desk(own);
        StormDesk {
            desk,
            foreign,
            intruder,
            number: 0,
        }
    }
}

impl<I: Intruder> StormDesk<I> {
    ghost use Rattle.pas_plain.specs.Plain.{profile_of};

    /// Ends the storm: the region, the own and the foreign pass, and the intruder.
    pub fn into_parts(self) -> (PlainRegion, PlainPass, PlainPass, I)
        ensures seat { seat_for result.0 result.1 ≡ (⟦<StormDesk<I> as Desk>⟧.standing self).seat }
        ensures stands { (v : View) (l : Whole) → (⟦<StormDesk<I> as Desk>⟧.standing self).stands v l → (w : Whole) × StormStands result.0 result.1 result.2 v w }
    {
        let StormDesk {
            desk,
            foreign,
            intruder,
            number: _,
        } = self;
        let (region, own) = desk.into_parts();
        (region, own, foreign, intruder)
    }

    /// Lets the intruder act before the next own step, where the foreign actor has the room.
    fn disturb(&mut self)
        requires { MayStorm (region_of self.old.desk) (pass_of self.old.desk) self.old.foreign }
        ensures stands { (v : View) (l : Whole) → StormStands (region_of self.old.desk) (pass_of self.old.desk) self.old.foreign v l
            → (w : Whole) × StormStands (region_of self.new.desk) (pass_of self.new.desk) self.new.foreign v w }
        ensures own { pass_of self.new.desk ≡ pass_of self.old.desk }
        ensures profile { profile_of (region_of self.new.desk) ≡ profile_of (region_of self.old.desk) }
    {
        self.number = self.number.saturating_add(1);
        if self.foreign.spare() >= LEAST_SPARE {
            self.desk.exchange_pass(&mut self.foreign);
            self.intruder.act(&mut self.desk, self.number);
            self.desk.exchange_pass(&mut self.foreign);
        }
    }
}

impl<I: Intruder> Desk for StormDesk<I> {
    ghost use Rattle.std.{specs.Prelude.false, proofs.lemmas.Bool.false≢true};
    ghost use Rattle.pas_plain.specs.{Plain.forgotten_by, Storms.{storm_of, shown_own, spare_own, counted_own}};

    type Home = u32;

    ghost home = { λ storm. forgotten_by (pass_of storm.desk) };

    ghost forgotten = { λ n. n };

    ghost tells = { false };

    ghost standing = { λ storm. storm_of storm.desk storm.foreign };

    ghost spare_of = { λ storm. ⟦<PlainDesk as Desk>⟧.spare_of storm.desk };

    ghost shown_of = { λ storm. ⟦<PlainDesk as Desk>⟧.shown_of storm.desk };

    ghost count_of = { λ storm. ⟦<PlainDesk as Desk>⟧.count_of storm.desk };

    fn actor(&self) -> u8 {
        self.desk.actor()
    }

    fn profile(&self) -> &Profile {
        self.desk.profile()
    }

    fn count(&self) -> u64 {
        self.desk.count()
    }

    fn shown(&self) -> &[Event] {
        self.desk.shown()
    }

    fn make(&mut self, step: Step) -> u64 {
        self.disturb();
        self.desk.make(step)
    }

    ghost valid = { λ storm. storm.desk.region.valid };

    ghost limited = { λ storm. storm.desk.pass.notes.room.limited };

    ghost shows = { λ storm v l stood. shown_own storm.desk storm.foreign v stood.0 stood.1 };

    ghost spares = { λ storm v l stood. spare_own storm.desk storm.foreign v stood.0 stood.1 };

    ghost counts = { λ storm v l stood. counted_own storm.desk storm.foreign v stood.0 stood.1 };

    ghost told = { λ storm v l tells stood. absurd (false≢true tells) };

    ghost told_part = { λ storm v l tells stood. absurd (false≢true tells) };
}
