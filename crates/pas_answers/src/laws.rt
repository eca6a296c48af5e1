//! What follows for the guards of a replay, and for guarded requests.
ghost use Rattle.std.specs.Prelude.{ℕ, ◌+◌, ◌<◌, ◌≤◌, ◌≡◌, List, ◌∷◌, ◌++◌, length, Option, Result};
ghost use Rattle.pas_profile.specs.{Profiles.IsValid, declared.{event.NoRoom.NoRoom, name.Block.Block, profile.Profile.Profile, guard.Guard.Guard as TheGuard}};
ghost use Rattle.pas_steps.specs.{Lists.{Triple, Whole, part}, Past.Always, Views.View};
ghost use Rattle.pas_records.specs.declared.record.Record.{Record};
ghost use Rattle.pas_trace.specs.declared.{item.Request.Request, plan.Plan.Plan};
ghost use Rattle.pas_cache.specs.{Caches.Cached, Calls.AllocatesPages};
ghost use Rattle.pas_guard.specs.Keepers.{PutsNoneOf, GivesGuarded, StandsThrough};
ghost use Rattle.pas_answers.specs.{Answers.wanted_by, Replays.{IsReplay, region_of, threads_of}, Ways.Way, Guarding.{Tried, try_steps, guarded_steps}};
ghost use Rattle.pas_answers.specs.Guarding.{IsTried};

use pas_guard::laws::outer_pages_stay_bare;
use pas_steps::Desk;

/// In every replay, in both ways, whatever the other actors do: from the give of a keeper, which is an actor behind the threads, until it puts a grain of one of
/// the two pages beside the block, the keeper holds both pages whole, they have deeds of the block's heap and aren't backed, nobody backs one, and no block is
/// given on one.
pub fn guards_stay_bare()
    ensures { (way : Way) (plan : Plan) (whole : Whole) (records : List Record) (keeper : ℕ) (guard : TheGuard) (later newer older : Whole) (give : Triple) → IsValid (region_of plan) → IsReplay way plan whole records → threads_of plan < keeper
        → whole ≡ later ++ (newer ++ (give ∷ older)) → GivesGuarded keeper guard give → Always (PutsNoneOf guard) (part keeper newer) → StandsThrough keeper guard newer (give ∷ older) }
{
    outer_pages_stay_bare();
}

/// How long a guarded request is: the keeper's try has at most 25 steps for each guard that was up, 71 for each page of the region, 12 for each page that is asked
/// for, and 26 more. Where the thread makes the request itself after that, 56 for each page of the region come on top, 60 for each page that is asked for, and 66.
pub fn guarded_requests_are_short<D: Desk>(desk: &D, later: &D)
    ensures tried { (f : Profile) (keeper : ℕ) (r : Request) (v : View) (guards : List TheGuard) (t : Tried) → IsTried f keeper r v guards t → length t.steps ≤ try_steps f r guards }
    ensures whole { (keeper : ℕ) (r : Request) (v : View) (guards : List TheGuard) (t : Tried) (found : Option ℕ) (c c' : Cached) (answer : Result Block NoRoom) → IsTried (D.standing desk.now).seat.profile keeper r v guards t
        → (call : AllocatesPages (wanted_by (D.standing desk.now).seat.profile r) found D.tells c c' (D.standing desk.now) (D.standing later.now) answer) → length t.steps + length call.steps ≤ guarded_steps (D.standing desk.now).seat.profile r guards }
{}
