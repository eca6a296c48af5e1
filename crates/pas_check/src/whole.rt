//! The check of a transcript.
ghost use Rattle.std.specs.Prelude.{ℕ, ◌≡◌, ◌≤◌, List, length, IfOk};
ghost use Rattle.pas_trace.specs.{Plans.IsPlanOf, Acts.keepers_of};
ghost use Rattle.pas_check.specs.Accepted.{IsVerdict};

use crate::acting::Judge;
use crate::checking::take_acts;
use crate::cutting::{Cursor, next_line};
use crate::reporting::take_report;
use crate::verdict::Verdict;
use pas_profile::NoMemory;
use pas_trace::Plan;
use std::alloc::Global;

/// How many keepers the plan has.
fn keeper_count(plan: &Plan) -> u8
    ensures { result ≡ keepers_of plan.now }
{
    if plan.guard == 0 {
        0
    } else {
        plan.profile.threads
    }
}

/// Whether the transcript is a right one of the plan, in the order of the text: yes; or the number of the first line that can't follow the lines
/// before it, or of the line that is wanting where the text ends too early. A last line without its newline isn't right.
///
/// NoMemory where memory was wanting. Takes one pass over the plan and the transcript, some looks at each page and grain of the region, and memory in
/// proportion to the region, the names of the plan and its threads.
pub fn check(alloc: Global, plan: &Plan, transcript: &[u8]) -> Result<Verdict, NoMemory>
    requires plan { (text : List ℕ) × (length text ≤ 16777216) × IsPlanOf text plan.now }
    requires short { length transcript.now ≤ 16777216 }
    ensures { IfOk result (λ verdict. IsVerdict plan.now transcript.now verdict) }
{
    let mut judge = match Judge::try_new(alloc, plan) {
        Ok(judge) => judge,
        Err(NoMemory) => return Err(NoMemory),
    };
    let mut cursor = Cursor::first();
    let keepers = keeper_count(plan);
    let phases = plan.phases.as_slice();
    if !take_acts(&mut judge, transcript, &mut cursor, phases, keepers) {
        if judge.lacks_memory {
            return Err(NoMemory);
        }
        return Ok(Verdict::No(cursor.lines));
    }
    if !take_report(&judge.machine, transcript, &mut cursor) {
        return Ok(Verdict::No(cursor.lines));
    }
    match next_line(transcript, &mut cursor) {
        None => Ok(Verdict::Yes),
        Some(_) => Ok(Verdict::No(cursor.lines)),
    }
}
