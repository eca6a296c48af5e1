//! What a refill finds where no other actor makes a step meanwhile, whatever its desk tells. The law is the contract of an empty function.
ghost use Rattle.std.specs.Prelude.{ℕ, ◌++◌, Result};
ghost use Rattle.pas_profile.specs.{Profiles.IsDirectoryOf, declared.event.NoRoom.NoRoom};
ghost use Rattle.pas_steps.specs.{Desks.triples, Lists.{Whole, part, Legal}};
ghost use Rattle.pas_search.specs.{Alone.FindsWhatThereIs, Searches.MaySearch};
ghost use Rattle.pas_segregated.specs.{Refills.{exclusive_slots, Refills}, Stops.class_directory, Takes.NoSlot, declared.slots.Slots.Slots as TheSlots};

use pas_steps::Desk;

/// Where the steps of a refill of a class stand together in a legal list, which is so where no other actor made a step meanwhile, it is refused exactly
/// where, before, no page without a deed was there and no offered page of the class had a free slot. Where all actors were at rest then and none had a right,
/// the refusal is `NoSpace`.
pub fn a_lone_refill_finds_what_there_is<D: Desk>(desk: &D, later: &D)
    ensures { (heap class : ℕ) (answer : Result TheSlots NoRoom) (call : Refills (exclusive_slots heap class) D.tells (D.standing desk.now) (D.standing later.now) answer) (l : Whole)
        → IsDirectoryOf (D.standing desk.now).seat.profile (class_directory heap class) → Legal (D.standing desk.now).seat.profile (triples (D.standing desk.now).seat.actor (call.after ++ call.searched) ++ l)
        → MaySearch (class_directory heap class) (part (D.standing desk.now).seat.actor l) → FindsWhatThereIs (NoSlot class) (D.standing desk.now).seat.profile (class_directory heap class) l answer }
{}
