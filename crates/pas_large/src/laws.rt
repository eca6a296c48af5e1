//! What a request for whole pages finds where no other actor makes a step meanwhile, whatever its desk tells. The law is the contract of an empty function.
ghost use Rattle.std.specs.Prelude.{ℕ, ◌<◌, ◌++◌, Option, Result};
ghost use Rattle.pas_profile.specs.declared.{event.NoRoom.NoRoom, name.Block.Block};
ghost use Rattle.pas_scan.specs.Runs.{large_directory};
ghost use Rattle.pas_steps.specs.{Desks.triples, Lists.{Whole, part, Legal}};
ghost use Rattle.pas_large.specs.{Allocates.AllocatesLarge, Alone.FindsTheRunThereIs, Finds.MayFind};

use pas_steps::Desk;

/// Where the steps of a request stand together in a legal list, which is so where no other actor made a step meanwhile, the run that the door named serves it
/// exactly where, before, each of its pages was one of the heap's large pages, offered and free; otherwise the scan follows. The request is refused only where,
/// before, no run of so many pages was there, each without a deed or such a page. Where all actors were at rest then and none had a right, it isn't answered
/// by `Held`.
pub fn a_lone_request_finds_the_run_there_is<D: Desk>(desk: &D, later: &D)
    ensures { (heap n : ℕ) (found : Option ℕ) (answer : Result Block NoRoom) (call : AllocatesLarge heap n found D.tells (D.standing desk.now) (D.standing later.now) answer) (l : Whole)
        → heap < (D.standing desk.now).seat.profile.heaps → Legal (D.standing desk.now).seat.profile (triples (D.standing desk.now).seat.actor (call.rest ++ call.tried) ++ l)
        → MayFind (large_directory heap) (part (D.standing desk.now).seat.actor l) → FindsTheRunThereIs (D.standing desk.now).seat.profile (large_directory heap) n found l (call.rest ++ call.tried) answer }
{}
