//! What a refill from shared pages finds where no other actor makes a step meanwhile, whatever its desk tells. The law is the contract of an empty function.
ghost use Rattle.std.specs.Prelude.{ℕ, ◌++◌, Result};
ghost use Rattle.pas_profile.specs.{Profiles.IsDirectoryOf, declared.event.NoRoom.NoRoom};
ghost use Rattle.pas_steps.specs.{Desks.triples, Lists.{Whole, part, Legal}};
ghost use Rattle.pas_search.specs.{Alone.FindsWhatThereIs, Searches.MaySearch};
ghost use Rattle.pas_segregated.specs.{Refills.Refills, Takes.NoSlot, declared.slots.Slots.Slots as TheSlots};
ghost use Rattle.pas_partial.specs.Refills.{shared_directory, shared_slots};

use pas_steps::Desk;

/// Where the steps of a refill stand together in a legal list, which is so where no other actor made a step meanwhile, it is refused exactly where, before, no
/// page without a deed was there and no offered shared page of the heap had a free slot of the class. Where all actors were at rest then and none had a
/// right, the refusal is `NoSpace`.
pub fn a_lone_refill_finds_what_there_is<D: Desk>(desk: &D, later: &D)
    ensures { (heap class : ℕ) (answer : Result TheSlots NoRoom) (call : Refills (shared_slots heap class) D.tells (D.standing desk.now) (D.standing later.now) answer) (l : Whole)
        → IsDirectoryOf (D.standing desk.now).seat.profile (shared_directory heap) → Legal (D.standing desk.now).seat.profile (triples (D.standing desk.now).seat.actor (call.after ++ call.searched) ++ l)
        → MaySearch (shared_directory heap) (part (D.standing desk.now).seat.actor l) → FindsWhatThereIs (NoSlot class) (D.standing desk.now).seat.profile (shared_directory heap) l answer }
{}
