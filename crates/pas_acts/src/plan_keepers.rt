//! The keepers of a guarded plan: how many there are, the region that has room for them, and their books.
ghost use Rattle.std.specs.{Prelude.{◌≡◌, ◌==◌, ◌<◌, ◌≤◌, ◌+◌, ◌^◌, ℕ, if◌then◌else◌, List, IfOk, map, slice_index_or}, List.AllByRecursion};
ghost use Rattle.pas_profile.specs.Profiles.{IsValid};
ghost use Rattle.pas_trace.specs.{Asked.keeper_in, Courses.{IsCourse, IsCourseOf}, EveryPlan.all_ops, Plans.IsPlanOf, declared.plan.Plan.Plan as ThePlan};
ghost use Rattle.pas_answers.specs.Replays.{region_of, keepers_of};
ghost use Rattle.pas_acts.specs.PlanKeepers.{keepers_by, one_guarded, guarded_of, AreBooksFor, AreBooks};

use pas_guard::GuardBook;
use pas_profile::{NoMemory, Profile};
use pas_trace::{Course, Op, Operations, Plan, What};
use std::alloc::Global;

/// How many keepers the plan has: one for each thread in a guarded one, and none in another.
pub fn keepers_of(plan: &Plan) -> u8
    ensures { result ≡ keepers_of plan.now }
{
    keepers_by(plan.guard, plan.profile.threads)
}

/// .. one with this `guard` and so many threads
fn keepers_by(guard: u32, threads: u8) -> u8
    ensures { result ≡ keepers_by guard threads }
{
    if guard == 0 { 0 } else { threads }
}

/// The region that a replay of the plan is opened for: its own, with a place for each keeper.
pub fn region_of(plan: &Plan) -> Profile
    requires { (text : List ℕ) × IsPlanOf text plan.now }
    ensures region { result ≡ region_of plan.now }
    ensures valid { IsValid result }
{
    region_by(&plan.course())
}

/// .. of a plan with this course
pub fn region_by<P: Operations>(course: &Course<'_, P>) -> Profile
    requires { IsCourse P.ops course.now }
    ensures region { (plan : ThePlan) → IsCourseOf P.ops plan course.now → result ≡ region_of plan }
    ensures valid { IsValid result }
{
    Profile {
        threads: course.profile.threads + keepers_by(course.guard, course.profile.threads),
        ..course.profile
    }
}

/// How many guarded requests the operation is: one or none.
fn guarded_in(op: Op) -> u32
    ensures { result ≡ one_guarded (keeper_in op.what) }
{
    match op.what {
        What::Guarded { .. } => 1,
        _ => 0,
    }
}

/// Counts so many more of this actor.
fn add(counts: &mut [u32; 17], actor: u8, more: u32)
    requires actor { actor < 17 }
    requires few { slice_index_or counts.old actor 0 + more < 2 ^ 32 }
    ensures { (k : ℕ) → slice_index_or counts.new k 0 ≡ (if actor == k then slice_index_or counts.old actor 0 + more else slice_index_or counts.old k 0) }
{
    counts[actor as usize] += more;
}

/// Adds how many operations of the phase are guarded requests, by actor. One look at each.
fn count_guarded<P: Operations>(phase: &P, counts: &mut [u32; 17])
    requires actors { AllByRecursion (λ op. op.actor < 17) (P.ops phase.now) }
    requires few { (k : ℕ) → slice_index_or counts.old k 0 + guarded_of k (P.ops phase.now) < 2 ^ 32 }
    ensures { (k : ℕ) → slice_index_or counts.new k 0 ≡ slice_index_or counts.old k 0 + guarded_of k (P.ops phase.now) }
{
    for place in 0..phase.count() {
        let op = phase.op(place);
        add(counts, op.actor, guarded_in(op));
    }
}

/// How many guarded requests of each thread the phases have, by thread.
#[tactic(auto, using(crate::proofs::Making::phases_next))]
fn guarded_by_thread<P: Operations>(phases: &[P]) -> [u32; 17]
    requires actors { AllByRecursion (λ op. op.actor < 17) (all_ops (map P.ops phases.now)) }
    requires few { (k : ℕ) → guarded_of k (all_ops (map P.ops phases.now)) < 2 ^ 32 }
    ensures { (k : ℕ) → slice_index_or result k 0 ≡ guarded_of k (all_ops (map P.ops phases.now)) }
{
    let mut counts = [0; 17];
    for phase in phases {
        count_guarded(phase, &mut counts);
    }
    counts
}

/// So many books, with so many places by their keepers' threads.
fn books_of(alloc: Global, keepers: u8, places: &[u32; 17]) -> Result<Vec<GuardBook>, NoMemory>
    requires { keepers ≤ 16 }
    ensures { IfOk result (λ books. AreBooksFor keepers (λ k. slice_index_or places.now k 0) books.items) }
{
    let Ok(mut books) = Vec::with_capacity(alloc, keepers as usize) else {
        return Err(NoMemory);
    };
    for below in 0..keepers {
        let book = GuardBook::try_new(alloc, places[below as usize + 1])?;
        books.push_reserved(book);
    }
    Ok(books)
}

/// A book for each keeper, with a place for each guarded request of its thread, and no guard in it. None in a plan that isn't guarded. NoMemory where memory was
/// wanting. One look at each operation of a guarded plan.
pub fn books_for(alloc: Global, plan: &Plan) -> Result<Vec<GuardBook>, NoMemory>
    requires { (text : List ℕ) × IsPlanOf text plan.now }
    ensures { IfOk result (λ books. AreBooks plan.now books.items) }
{
    books_by(alloc, &plan.course())
}

/// .. of a plan with this course
pub fn books_by<P: Operations>(
    alloc: Global,
    course: &Course<'_, P>,
) -> Result<Vec<GuardBook>, NoMemory>
    requires { IsCourse P.ops course.now }
    ensures { (plan : ThePlan) → IsCourseOf P.ops plan course.now → IfOk result (λ books. AreBooks plan books.items) }
{
    let keepers = keepers_by(course.guard, course.profile.threads);
    if keepers == 0 {
        return Ok(Vec::new(alloc));
    }
    let _total = course.total;
    books_of(alloc, keepers, &guarded_by_thread(course.phases))
}
