//! What the scavenger's worker does in a phase at its bench, with the idle threads that are lent to it.
ghost use Rattle.std.specs.Prelude.{◌≡◌, ◌<◌, ◌^◌, ◌++◌, ℕ, List, [], length};
ghost use Rattle.pas_utility.specs.Outcomes.{places_of};
ghost use Rattle.pas_trace.specs.{EveryPlan.{AreSound, IsSoundWork}, Acts.{Act, acts_of_chore, scavenger_acts}};
ghost use Rattle.pas_trace.specs.declared.plan.Work.TheVariants as TheWork;
ghost use Rattle.pas_answers.specs.Answers.{Progress};
ghost use Rattle.pas_shared.specs.declared.bench_desk.BenchHome.{BenchHome};
ghost use Rattle.pas_threads.specs.{Lent.{Shift, home_at, standing_at}, Crews.{crew, CrewSits, CrewActs}};

use crate::lending::stop_idle;
use crate::workers::Worker;
use pas_acts::at_desk::{SCAVENGER, pass, read_epoch, tick};
use pas_acts::gate::Gate;
use pas_records::Records;
use pas_shared::BenchDesk;
use pas_trace::{Chore, Op, Work};
use pas_utility::Outcomes;

/// Does one of the scavenger's chores: a tick, a pass, or the stops of the lent threads that were idle for long enough.
pub(crate) fn scavenge_one(
    desk: &mut BenchDesk<'_>,
    lent: &mut [Worker],
    outcomes: &mut Outcomes,
    chore: Chore,
    out: &mut Records,
)
    requires may { (h : BenchHome) × (s : Shift) × (next : List Act) × (p : Progress) × (home_at desk.old ≡ h) × IsSoundWork s.profile [] (TheWork.Chore chore) × CrewSits h s (acts_of_chore s.idle chore ++ next) (crew (standing_at desk.old) lent.old (places_of outcomes.old) out.old) p }
    ensures did { (h : BenchHome) (s : Shift) (next : List Act) (p : Progress) → home_at desk.old ≡ h → CrewSits h s (acts_of_chore s.idle chore ++ next) (crew (standing_at desk.old) lent.old (places_of outcomes.old) out.old) p
        → CrewActs h s (acts_of_chore s.idle chore) next (crew (standing_at desk.old) lent.old (places_of outcomes.old) out.old) (crew (standing_at desk.new) lent.new (places_of outcomes.new) out.new) p }
    ensures home { home_at desk.new ≡ home_at desk.old }
    ensures many { length lent.new ≡ length lent.old }
{
    match chore {
        Chore::Tick(epoch) => tick(desk, epoch, out),
        Chore::Pass => pass(desk, outcomes, out),
        Chore::Idle(epochs) => {
            let epoch = read_epoch(desk);
            stop_idle(desk, lent, epochs, epoch, out);
        }
    }
}

/// Does the scavenger's operations among those of a phase, in order, with the gate called round each.
pub(crate) fn scavenge<G: Gate>(
    desk: &mut BenchDesk<'_>,
    lent: &mut [Worker],
    outcomes: &mut Outcomes,
    ops: &[Op],
    gate: &G,
    out: &mut Records,
)
    requires few { length ops.now < 2 ^ 32 }
    requires may { (h : BenchHome) × (s : Shift) × (asked : List ℕ) × (p : Progress) × (home_at desk.old ≡ h) × AreSound s.profile asked ops.now × CrewSits h s (scavenger_acts s.idle ops.now) (crew (standing_at desk.old) lent.old (places_of outcomes.old) out.old) p }
    ensures did { (h : BenchHome) (s : Shift) (asked : List ℕ) (p : Progress) → home_at desk.old ≡ h → AreSound s.profile asked ops.now → CrewSits h s (scavenger_acts s.idle ops.now) (crew (standing_at desk.old) lent.old (places_of outcomes.old) out.old) p
        → CrewActs h s (scavenger_acts s.idle ops.now) [] (crew (standing_at desk.old) lent.old (places_of outcomes.old) out.old) (crew (standing_at desk.new) lent.new (places_of outcomes.new) out.new) p }
    ensures home { home_at desk.new ≡ home_at desk.old }
    ensures many { length lent.new ≡ length lent.old }
{
    let mut number = 0;
    for op in ops {
        if let Work::Chore(chore) = op.work() {
            number += 1;
            gate.before(SCAVENGER, number);
            scavenge_one(desk, lent, outcomes, chore, out);
            gate.after(SCAVENGER, number);
        }
    }
}
