//! A block that one actor hands another, with its past.
ghost use Rattle.std.specs.Prelude.{ℕ, ◌≡◌, ◌≤◌, ◌∷◌, Some, List, IfOk, IfSome};
ghost use Rattle.pas_profile.specs.declared.{event.Event.Event as TheEvent, profile.Profile.Profile as TheProfile};
ghost use Rattle.pas_steps.specs.{Noted.events_noted, Clear.HasNothing, Views.View};
ghost use Rattle.pas_cache.specs.Caches.{cached, AtRest};
ghost use Rattle.pas_shared.specs.Passes.{profile_of};
ghost use Rattle.pas_trials.specs.Handing.{IsFirst, IsOfActor, IsGiftOf, HasFreed, IsHandedOver};

use pas_cache::ThreadCache;
use pas_free_log::end_one;
use pas_profile::{Event, Name};
use pas_shared::{Past, SharedPass, SharedRegion, close_after};
use std::alloc::{AllocError, Global};

/// What an actor hands another: the name of a block, and the past by which it was given.
#[derive(Drop)]
pub struct Gift {
    pub name: Name,
    pub past: Past,
}

/// A block that was handed over, and the one event of the actor that freed it.
#[derive(Clone, Copy, PartialEq, Eq, Drop)]
pub struct Handed {
    pub name: Name,
    pub event: Option<Event>,
}

/// Actor 1 asks its cache for a block of 64 bytes, and hands it on. None where there is no room.
pub fn borrow(
    region: &SharedRegion,
    pass: SharedPass,
    cache: &mut ThreadCache,
) -> (SharedPass, Option<Gift>)
    requires pass { IsFirst region.now 1 3 pass }
    requires rest { (f : TheProfile) (v : View) → HasNothing v → AtRest f (cached cache.old) v }
    ensures pass { IsOfActor region.now 1 result.0 }
    ensures gift { IfSome result.1 (IsGiftOf region.now result.0) }
{
    let mut desk = region.desk(pass);
    let answer = cache.alloc(&mut desk, 0, 64, 16);
    let past = desk.past();
    let pass = desk.into_pass();
    match answer {
        Ok(block) => (
            pass,
            Some(Gift {
                name: block.name,
                past,
            }),
        ),
        Err(_) => (pass, None),
    }
}

/// Actor 2 takes the past, and ends the block.
pub fn free(
    region: &SharedRegion,
    pass: SharedPass,
    giver: &SharedPass,
    gift: Gift,
) -> (SharedPass, Past)
    requires pass { IsFirst region.now 2 3 pass }
    requires gift { IsGiftOf region.now giver.now gift }
    ensures pass { IsOfActor region.now 2 result.0 }
    ensures freed { HasFreed region.now gift result.0 result.1 }
{
    let _ = giver;
    let Gift { name, past } = gift;
    let mut desk = region.desk(pass);
    let past = desk.after(past);
    end_one(&mut desk, name);
    (desk.into_pass(), past)
}

/// The oldest event of the actor.
fn first_event(pass: &SharedPass) -> Option<Event>
    ensures { (event : TheEvent) (more : List TheEvent) → events_noted pass.now.notes ≡ event ∷ more → result ≡ Some event }
{
    pass.shown().first().copied()
}

/// Actor 1 asks for a block and hands it to actor 2, which frees it: the block ends, and isn't refused as one that doesn't live. Then the region is closed. None where
/// there is no room for the block.
pub fn hand_over(
    alloc: Global,
    region: SharedRegion,
    scavenger: SharedPass,
    giver: SharedPass,
    taker: SharedPass,
    cache: &mut ThreadCache,
) -> Result<Option<Handed>, AllocError>
    requires threads { (profile_of region).threads ≡ 2 }
    requires scavenger { IsFirst region 0 3 scavenger }
    requires giver { IsFirst region 1 3 giver }
    requires taker { IsFirst region 2 3 taker }
    requires rest { (f : TheProfile) (v : View) → HasNothing v → AtRest f (cached cache.old) v }
    ensures { IfOk result (λ handed. IfSome handed IsHandedOver) }
{
    let (giver, gift) = borrow(&region, giver, cache);
    let Some(gift) = gift else {
        return Ok(None);
    };
    let name = gift.name;
    let (taker, past) = free(&region, taker, &giver, gift);
    let event = first_event(&taker);
    let passes = vec![in alloc; scavenger, giver, taker]?;
    close_after(region, past, passes);
    Ok(Some(Handed { name, event }))
}
