//! What a bit-fit request finds where no other actor makes a step meanwhile, whatever its desk tells. The law is the contract of an empty function.
ghost use Rattle.std.specs.Prelude.{ℕ, ◌++◌, Result};
ghost use Rattle.pas_profile.specs.{Profiles.IsDirectoryOf, declared.{event.NoRoom.NoRoom, name.Block.Block}};
ghost use Rattle.pas_steps.specs.{Desks.triples, Lists.{Whole, part, Legal}};
ghost use Rattle.pas_search.specs.{Alone.FindsWhatThereIs, Searches.MaySearch};
ghost use Rattle.pas_bitfit.specs.{Allocates.{bitfit_directory, run_for, Allocates}, Runs.NoneFits};

use pas_steps::Desk;

/// Where the steps of a request stand together in a legal list, which is so where no other actor made a step meanwhile, it is refused exactly where, before, no
/// page without a deed was there and no offered bit-fit page of the heap had an aligned run of free grains that is long enough. Where all actors were at rest
/// then and none had a right, the refusal is `NoSpace`.
pub fn a_lone_request_finds_what_there_is<D: Desk>(desk: &D, later: &D)
    ensures { (heap room align : ℕ) (answer : Result Block NoRoom) (call : Allocates heap room align D.tells (D.standing desk.now) (D.standing later.now) answer) (l : Whole)
        → IsDirectoryOf (D.standing desk.now).seat.profile (bitfit_directory heap) → Legal (D.standing desk.now).seat.profile (triples (D.standing desk.now).seat.actor (call.0.after ++ call.0.searched) ++ l)
        → MaySearch (bitfit_directory heap) (part (D.standing desk.now).seat.actor l) → FindsWhatThereIs (NoneFits (run_for room align)) (D.standing desk.now).seat.profile (bitfit_directory heap) l answer }
{}
