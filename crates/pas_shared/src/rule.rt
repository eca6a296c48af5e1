//! What the seats of the table know, the rule of the table, and how a seat changes.

use atomic_table::{Join, Play, Seat, Shared, Split, TableRule};
use pas_profile::Profile;
use pas_steps::Made;
use std::collections::LinkedList;
use std::marker::{Brand, PhantomData};

/// The steps of one actor, the newest first. No value of it is made.
pub struct Part {
    pub actor: u64,
    pub made: LinkedList<Made>,
}

/// A step in the list of all steps. No value of it is made.
pub struct Entry {
    pub actor: u64,
    pub made: Made,
}

/// Actors that sit together, and the steps that they made since the list of all was `base`, in the order in which they made them, the newest first. No value of
/// it is made.
pub struct Row {
    pub actors: LinkedList<u64>,
    pub made: LinkedList<Entry>,
    pub base: LinkedList<Entry>,
}

/// The actors that a seat names: all from one on, none of which made a step, those of a list, or those of the rows of a bench. A ledger's seat saw the first steps of the
/// list of all, too, the newest of them first, at each of some looks. No value of it is made.
pub enum Roster {
    Unused {
        from: u64,
    },
    Listed {
        parts: LinkedList<Part>,
    },
    Settled {
        seen: LinkedList<LinkedList<Entry>>,
        parts: LinkedList<Part>,
    },
    Benched {
        rows: LinkedList<Row>,
    },
}

/// The words are those after one legal list, and what the seats know is the own list of each actor.
pub struct OneList;

impl TableRule<(), Roster, Profile> for OneList {
    ghost use Rattle.pas_shared.specs.{Ruled.Holds, declared.rule.Roster.TheVariants.Unused};

    ghost holds = { λ f s. Holds f s };

    ghost first = { λ f. Unused 0 };
}

pub(crate) type TableWords = Shared<(), Roster, Profile, OneList>;

pub(crate) type TableSeat = Seat<(), Roster>;

/// Which step a call makes, and for whom. Each call chooses it.
pub(crate) trait Chosen {
    ghost use Rattle.std.specs.Prelude.{ℕ};
    ghost use Rattle.pas_profile.specs.declared.profile.Profile.{Profile};
    ghost use Rattle.pas_steps.specs.{declared.step.Step.Step, Views.View};
    ghost use Rattle.pas_shared.specs.declared.rule.Roster.{Roster};

    ghost profile: { Profile };

    ghost place: { Roster };

    ghost actor: { ℕ };

    ghost view: { View };

    ghost step: { Step };
}

impl Chosen for Brand {
    ghost use Rattle.std.specs.Prelude.{[]};
    ghost use Rattle.pas_steps.specs.declared.step.Step.TheVariants.{Tick};
    ghost use Rattle.pas_shared.specs.declared.rule.Roster.TheVariants.{Unused};

    ghost profile = { record { pages = 0; threads = 0; age = 0; heaps = 0; shared = 0; classes = 0 } };

    ghost place = { Unused 0 };

    ghost actor = { 0 };

    ghost view = { [] };

    ghost step = { Tick 0 };
}

/// A step that is added to the list.
pub(crate) struct AddsStep<C> {
    marker: PhantomData<C>,
}

impl<C: Chosen> Play<(), Roster> for AddsStep<C> {
    ghost use Rattle.pas_shared.specs.Ruled.{IsAdded};

    ghost then = { λ _ _ n me. IsAdded C.profile C.place C.actor C.view C.step n me };
}

/// A step that is added to the list where it leaves the word that it found as it is. Otherwise nothing is.
pub(crate) struct AddsIfKept<C> {
    marker: PhantomData<C>,
}

impl<C: Chosen> Play<(), Roster> for AddsIfKept<C> {
    ghost use Rattle.pas_shared.specs.Ruled.{IsAddedIfKept};

    ghost then = { λ _ _ n me. IsAddedIfKept C.profile C.place C.actor C.view C.step n me };
}

/// The first of the actors that made no step gets a seat of its own.
pub(crate) struct SplitsFirst;

impl Split<Roster> for SplitsFirst {
    ghost use Rattle.pas_shared.specs.Ruled.{all_but_first, first_alone};

    ghost left = { all_but_first };

    ghost right = { first_alone };
}

/// One seat takes in the actors of another, which then names nobody.
pub(crate) struct JoinsBoth;

impl Join<Roster> for JoinsBoth {
    ghost use Rattle.std.specs.Prelude.{[]};
    ghost use Rattle.pas_shared.specs.{declared.rule.Roster.TheVariants.Listed, Ruled.joined};

    ghost both = { joined };

    ghost spent = { Listed [] };
}

/// A new seat, which names nobody and saw nothing.
pub(crate) struct Arrives;

impl Play<(), Roster> for Arrives {
    ghost use Rattle.pas_shared.specs.Ruled.{SawNothing};

    ghost then = { λ _ _ _ me. SawNothing me };
}

/// All actors of a seat get a seat of their own, and the first one names nobody.
pub(crate) struct SplitsAll;

impl Split<Roster> for SplitsAll {
    ghost use Rattle.std.specs.Prelude.{[]};
    ghost use Rattle.pas_shared.specs.declared.rule.Roster.TheVariants.{Listed};

    ghost left = { λ _. Listed [] };

    ghost right = { λ u. u };
}

/// The actor that a ledger took in last gets a seat of its own.
pub(crate) struct SplitsLast;

impl Split<Roster> for SplitsLast {
    ghost use Rattle.pas_shared.specs.Ruled.{all_but_last, last_alone};

    ghost left = { all_but_last };

    ghost right = { last_alone };
}

/// A look of a ledger at all steps so far.
pub(crate) struct Looks;

impl Play<(), Roster> for Looks {
    ghost use Rattle.pas_shared.specs.Ruled.{SeesAll};

    ghost then = { λ _ before _ after. SeesAll before after };
}

/// Which actors of a bench go to another. Each call chooses it.
pub trait Picks {
    ghost use Rattle.std.specs.Prelude.{ℕ, Bool};

    ghost picked: { ℕ → Bool };
}

impl Picks for Brand {
    ghost use Rattle.std.specs.Prelude.{false};

    ghost picked = { λ _. false };
}

/// A new seat with one row, in which nobody sits.
pub(crate) struct Stands;

impl Play<(), Roster> for Stands {
    ghost use Rattle.pas_shared.specs.Ruled.{IsEmptyBench};

    ghost then = { λ _ _ _ me. IsEmptyBench me };
}

/// The picked actors of a bench get a bench of their own.
pub(crate) struct SplitsPicked<C> {
    marker: PhantomData<C>,
}

impl<C: Picks> Split<Roster> for SplitsPicked<C> {
    ghost use Rattle.pas_shared.specs.Ruled.{left_of, picked_of};

    ghost left = { left_of C.picked };

    ghost right = { picked_of C.picked };
}

/// Which actor of a bench gets a seat for itself. Each call chooses it.
pub(crate) trait Leaves {
    ghost use Rattle.std.specs.Prelude.{ℕ};

    ghost leaver: { ℕ };
}

impl Leaves for Brand {
    ghost leaver = { 0 };
}

/// The actor leaves the bench.
pub(crate) struct SplitsLeaver<C> {
    marker: PhantomData<C>,
}

impl<C: Leaves> Split<Roster> for SplitsLeaver<C> {
    ghost use Rattle.pas_shared.specs.Ruled.{left_of, isnt, only_this, leaver_of};

    ghost left = { left_of (only_this C.leaver) };

    ghost right = { leaver_of C.leaver };
}

/// A look of a bench at all steps so far.
pub(crate) struct Settles;

impl Play<(), Roster> for Settles {
    ghost use Rattle.pas_shared.specs.Ruled.{SettlesAll};

    ghost then = { λ _ before _ after. SettlesAll before after };
}
