//! What a cache's request comes to where no other actor makes a step meanwhile, whatever its desk tells. Each law is the contract of an empty function.
ghost use Rattle.std.specs.Prelude.{ℕ, ◌≡◌, List, ◌++◌, Option, Result, Err};
ghost use Rattle.pas_profile.specs.{Profiles.{IsValid, IsAdmitted}, declared.{event.NoRoom.{NoRoom, TheVariants.NoSpace}, name.Block.Block}};
ghost use Rattle.pas_profile.specs.declared.profile.Profile.{Profile};
ghost use Rattle.pas_steps.specs.{Desks.triples, Lists.{Whole, part, Legal}, declared.step.Made.Made};
ghost use Rattle.pas_cache.specs.{Caches.{Cached, AtRest}, Refusals.{IsTrulyRefused, OthersHaveNone, TakesWhatIsNamed}, Serves.{wanted_for, ServesRequest}};

/// Where the steps by which a request was refused stand together in a legal list, which is so where no other actor made a step meanwhile, the refusal is true,
/// whatever run a door named for it: no slot was cached, nothing could serve the request before these steps, nothing can after them, and the reason is true
/// after them.
pub fn a_lone_refusal_is_true()
    ensures { (f : Profile) (heap size align k : ℕ) (found : Option ℕ) (c c' : Cached) (l : Whole) (steps : List Made) (room : NoRoom) → IsValid f → IsAdmitted f size align heap → AtRest f c (part k l)
        → Legal f (triples k steps ++ l) → ServesRequest f (wanted_for f heap size align) found c c' steps (Err room) → IsTrulyRefused f (wanted_for f heap size align) c.locals l (triples k steps ++ l) room }
{}

/// Where besides no other actor had a right before these steps, no page is in anybody's hands after them: the reason is `NoSpace`.
pub fn a_lone_refusal_is_no_space()
    ensures { (f : Profile) (heap size align k : ℕ) (found : Option ℕ) (c c' : Cached) (l : Whole) (steps : List Made) (room : NoRoom) → IsValid f → IsAdmitted f size align heap → AtRest f c (part k l) → OthersHaveNone k l
        → Legal f (triples k steps ++ l) → ServesRequest f (wanted_for f heap size align) found c c' steps (Err room) → room ≡ NoSpace }
{}

/// Where the steps of a request for whole pages stand together, the run that a door named for it serves it exactly where each of its pages was one of the
/// heap's large pages before, offered and free: then in at most 18 steps a page and two more. Otherwise it goes as its search for a run does.
pub fn a_lone_request_takes_what_is_named()
    ensures { (f : Profile) (heap size align k : ℕ) (found : Option ℕ) (c c' : Cached) (l : Whole) (steps : List Made) (answer : Result Block NoRoom) → IsValid f → AtRest f c (part k l)
        → Legal f (triples k steps ++ l) → ServesRequest f (wanted_for f heap size align) found c c' steps answer → TakesWhatIsNamed f (wanted_for f heap size align) found l steps answer }
{}
