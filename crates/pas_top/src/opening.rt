//! What is made for a replay while its text is read, and the kit of it.
ghost use Rattle.std.specs.Prelude.{◌≤◌, ℕ, List, IfOk, length};
ghost use Rattle.pas_profile.specs.Profiles.{IsValid};
ghost use Rattle.pas_trace.specs.Plans.{IsPlanOf, IsReading};
ghost use Rattle.pas_threads.specs.Kits.{IsKitOf};

use pas_profile::{NoMemory, Profile};
use pas_threads::{Ahead, SharedKit};
use pas_trace::{Plan, ReadFault, header_of_text, read_trace_on};
use std::alloc::Global;
use std::thread::{Threads, join};

/// What the text comes to, and what a replay of it needs at a region of this profile, which is made meanwhile. There is nothing where memory was wanting for it.
fn read_and_prepare<R: Threads + Sync>(
    rt: &R,
    alloc: Global,
    profile: Profile,
    text: &[u8],
) -> (Result<Plan, ReadFault>, Option<Ahead>)
    requires text { length text.now ≤ 16777216 }
    requires profile { IsValid profile }
    ensures { IsReading text.now result.0 }
{
    let theirs = alloc;
    let read = || -> Result<Plan, ReadFault>
        requires { length text.now ≤ 16777216 }
        ensures { IsReading text.entry.now result }
    { read_trace_on(rt, alloc, text) };
    let prepare = || -> Option<Ahead>
        requires { IsValid profile }
    { Ahead::try_new(rt, theirs, profile, text).ok() };
    let (ahead, plan) = join(rt, prepare, read);
    (plan, ahead)
}

/// What the text comes to, and what a replay on threads needs, where the header names more than one thread.
pub(crate) fn read_for_threads<R: Threads + Sync>(
    rt: &R,
    alloc: Global,
    text: &[u8],
) -> (Result<Plan, ReadFault>, Option<Ahead>)
    requires { length text.now ≤ 16777216 }
    ensures { IsReading text.now result.0 }
{
    match header_of_text(text) {
        Some(profile) if profile.threads > 1 => read_and_prepare(rt, alloc, profile, text),
        _ => (read_trace_on(rt, alloc, text), None),
    }
}

/// The kit of the plan, of what was made ahead for it, if that was. A header says nothing of shared heaps, so the region of a plan that has some is a new one. While
/// its rooms move a kit needs memory beside what was made ahead; where that is wanting, it is made anew.
pub(crate) fn kit_of(
    alloc: Global,
    plan: &Plan,
    ahead: Option<Ahead>,
) -> Result<SharedKit, NoMemory>
    requires { (text : List ℕ) × IsPlanOf text plan.now }
    ensures { IfOk result (λ kit. IsKitOf plan.now kit) }
{
    if let Some(ahead) = ahead {
        if let Ok(kit) = SharedKit::try_new_of(alloc, plan, ahead) {
            return Ok(kit);
        }
    }
    SharedKit::try_new(alloc, plan)
}
