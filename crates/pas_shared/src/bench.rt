//! Benches: actors that sit at one seat, and make their steps one after the other. So the seat knows the order of all of them, and not of each actor's alone.
//!
//! A bench is laid out empty, takes passes and other benches in, and looks: then all its actors sit in one row. It gives some of them a bench of their own, which another
//! thread may have meanwhile.
ghost use Rattle.std.specs.Prelude.{◌≡◌, ◌≤◌, []};
ghost use Rattle.pas_profile.specs.Profiles.{IsValid};
ghost use Rattle.pas_shared.specs.{Ruled.rows_in, declared.rule.Roster.TheVariants.Benched};

use crate::leaving::leave;
use crate::pass::{ActorSeat, SharedPass};
use crate::region::SharedRegion;
use crate::rule::{JoinsBoth, Leaves, Picks, Settles, SplitsPicked, Stands, TableSeat};
use pas_profile::{Event, Profile};
use pas_steps::Notes;
use std::marker::Brand;

/// A seat of several actors. It has no bytes.
#[derive(Drop)]
pub struct Bench {
    pub(crate) seat: TableSeat,
    ghost benched: { seat.me ≡ (Benched (rows_in seat.me.0), []) },
}

/// An actor of a bench, with what it noted of its own steps. It makes none but at a `BenchDesk`.
#[derive(Drop)]
pub struct Member {
    pub(crate) actor: u8,
    pub(crate) profile: Profile,
    pub(crate) notes: Notes,
    ghost valid: { IsValid profile },
    ghost within: { actor ≤ profile.threads },
}

impl Member {
    ghost use Rattle.pas_steps.specs.Noted.{events_noted};
    ghost use Rattle.pas_shared.specs.Benches.{seat_of_member};

    /// The actor.
    #[inline]
    pub fn actor(&self) -> u8
        ensures { result ≡ (seat_of_member self.now).actor }
    {
        self.actor
    }

    /// The profile of the region.
    #[inline]
    pub fn profile(&self) -> &Profile
        ensures { result.now ≡ (seat_of_member self.now).profile }
    {
        &self.profile
    }

    /// All events made, the oldest first.
    #[inline]
    pub fn shown(&self) -> &[Event]
        ensures { result.now ≡ events_noted self.now.notes }
    {
        self.notes.shown()
    }
}

impl Bench {
    ghost use Rattle.std.specs.Prelude.{◌∷◌, ◌++◌, true};
    ghost use Rattle.pas_shared.specs.{Ruled.{alone, among, only_this, isnt, made_in, rows_of, rows_of_only}, Passes.{IsPassOf, seat_of, view_of}};
    ghost use Rattle.pas_shared.specs.{Ledgers.part_of, Benches.{rows_on, empty_row, IsBenchOf, IsMemberOf, HasLooked, IsFreshRow, first_row, SitsInRow}};
    ghost use Rattle.pas_shared.specs.Benches.{seat_of_member};

    /// A bench of the region on which nobody sits. One load.
    pub fn open(region: &SharedRegion) -> Bench
        ensures of { IsBenchOf region.now result }
        ensures rows { rows_on result ≡ empty_row ∷ [] }
    {
        Bench {
            seat: region.table.shared.load_new_seat::<Stands>(0).1,
        }
    }

    /// Seats the actor of the pass, in a row of its own. One load.
    pub fn seat(&mut self, region: &SharedRegion, pass: SharedPass) -> Member
        requires of { IsBenchOf region.now self.old }
        requires pass { IsPassOf region.now pass }
        ensures of { IsBenchOf region.now self.new }
        ensures member { IsMemberOf pass result }
        ensures rows { rows_on self.new ≡ rows_of (part_of pass ∷ []) ++ rows_on self.old }
    {
        let SharedPass {
            place,
            profile,
            notes,
        } = pass;
        let ActorSeat { seat, actor } = place;
        region
            .table
            .shared
            .join_seat::<JoinsBoth>(&mut self.seat, seat);
        Member {
            actor,
            profile,
            notes,
        }
    }

    /// Takes all rows of another bench in. One load.
    pub fn take(&mut self, region: &SharedRegion, other: Bench)
        requires of { IsBenchOf region.now self.old }
        requires other { IsBenchOf region.now other }
        ensures of { IsBenchOf region.now self.new }
        ensures rows { rows_on self.new ≡ rows_on other ++ rows_on self.old }
    {
        let Bench { seat } = other;
        region
            .table
            .shared
            .join_seat::<JoinsBoth>(&mut self.seat, seat);
    }

    /// Writes down all steps so far, of all actors of the region. All actors of the bench sit in one row then. One load.
    pub fn look(&mut self, region: &SharedRegion)
        requires of { IsBenchOf region.now self.old }
        ensures of { IsBenchOf region.now self.new }
        ensures looked { HasLooked (rows_on self.old) (rows_on self.new) }
    {
        region.table.shared.load::<Settles>(&mut self.seat, 0);
    }

    /// Gives the picked ones a bench of their own, where nobody made a step since the look. One load.
    pub fn give<C: Picks>(&mut self, region: &SharedRegion) -> Bench
        requires of { IsBenchOf region.now self.old }
        requires fresh { IsFreshRow (rows_on self.old) }
        ensures of { IsBenchOf region.now self.new }
        ensures given { IsBenchOf region.now result }
        ensures left { rows_on self.new ≡ rows_of_only (isnt C.picked) (rows_on self.old) }
        ensures picked { rows_on result ≡ rows_of_only C.picked (rows_on self.old) }
    {
        Bench {
            seat: region
                .table
                .shared
                .split_seat::<SplitsPicked<C>>(&mut self.seat),
        }
    }

    /// Lets the member leave a bench on which nobody made a step since the look: it has a pass again. One load.
    pub fn leave(&mut self, region: &SharedRegion, member: Member) -> SharedPass
        requires of { IsBenchOf region.now self.old }
        requires fresh { IsFreshRow (rows_on self.old) }
        requires profile { member.profile ≡ region.now.profile }
        requires sits { SitsInRow (first_row (rows_on self.old)) member }
        ensures of { IsBenchOf region.now self.new }
        ensures left { rows_on self.new ≡ rows_of_only (isnt (only_this member.actor)) (rows_on self.old) }
        ensures pass { IsPassOf region.now result }
        ensures seat { seat_of result ≡ seat_of_member member }
        ensures view { view_of result ≡ made_in (first_row (rows_on self.old)) member.actor }
    {
        let Member {
            actor,
            profile,
            notes,
        } = member;
        let seat = self.part(region, actor);
        SharedPass {
            place: ActorSeat { seat, actor },
            profile,
            notes,
        }
    }

    /// A seat for this actor alone.
    fn part(&mut self, region: &SharedRegion, _actor: u8) -> TableSeat
        requires of { IsBenchOf region.now self.old }
        requires fresh { IsFreshRow (rows_on self.old) }
        requires sits { among (first_row (rows_on self.old)).actors _actor ≡ true }
        ensures of { IsBenchOf region.now self.new }
        ensures left { rows_on self.new ≡ rows_of_only (isnt (only_this _actor)) (rows_on self.old) }
        ensures table { result.table_id ≡ region.now.table.shared.table_id }
        ensures alone { result.me ≡ (alone _actor (made_in (first_row (rows_on self.old)) _actor), []) }
    {
        leave::<Brand>(region, &mut self.seat, _actor)
    }
}
