//! The scavenger's worker at the shared region.
ghost use Rattle.std.specs.Prelude.{◌≡◌, ◌<◌, ◌^◌, ℕ, List, length};
ghost use Rattle.pas_steps.specs.Lists.{part};
ghost use Rattle.pas_utility.specs.Outcomes.{places_of};
ghost use Rattle.pas_trace.specs.{EveryPlan.AreSound, Acts.scavenger_acts};
ghost use Rattle.pas_answers.specs.Answers.{Progress};
ghost use Rattle.pas_shared.specs.Passes.{view_of, IsPassOf};
ghost use Rattle.pas_threads.specs.{Hands.standing_of_pass, Lent.{Shift, AreLent}, Scavengers.{CrewHasLeft, MayScavenge, DidScavenge}, Crews.{crew, CrewAt}};
ghost use Rattle.pas_threads.specs.Crews.{CrewSat, CrewMayRise, CrewRose};

use crate::crew::scavenge;
use crate::lending::{let_lent_leave, seat_lent};
use crate::workers::Worker;
use pas_acts::gate::Gate;
use pas_records::Records;
use pas_shared::{Bench, BenchDesk, SharedPass, SharedRegion};
use pas_trace::Op;
use pas_utility::Outcomes;

/// The scavenger of the replay: its pass while it doesn't sit at the region, its places for the outcomes of a pass, its records, and the workers
/// of the threads that are idle in the phase.
#[derive(Drop)]
pub(crate) struct Scavenger {
    pub(crate) pass: Option<SharedPass>,
    pub(crate) outcomes: Outcomes,
    pub(crate) out: Records,
    pub(crate) lent: Vec<Worker>,
    /// After its operations of a phase: the bench at which they were made, and on which nobody sits any more.
    pub(crate) bench: Option<Bench>,
}

/// Seats the scavenger and the lent threads on one bench, and the scavenger at its desk. Three loads, and one for each of those threads.
fn sit_down<'a>(region: &'a SharedRegion, pass: SharedPass, lent: &mut [Worker]) -> BenchDesk<'a>
    requires pass { IsPassOf region.now pass }
    requires may { (s : Shift) × (p : Progress) × AreLent region.now s lent.old p × (pass.place.actor ≡ 0) × (view_of pass ≡ part 0 p.list) }
    ensures region { result.region.now ≡ region.now }
    ensures sat { (s : Shift) (p : Progress) → AreLent region.now s lent.old p → pass.place.actor ≡ 0 → view_of pass ≡ part 0 p.list → CrewSat region.now s pass result lent.old lent.new p }
    ensures many { length lent.new ≡ length lent.old }
{
    let mut bench = Bench::open(region);
    let member = bench.seat(region, pass);
    seat_lent(region, &mut bench, lent);
    bench.look(region);
    region.bench_desk(bench, member)
}

/// Lets all leave the bench, which is left with what it saw. Two loads, and one for each of the lent threads.
fn rise(region: &SharedRegion, desk: BenchDesk<'_>, lent: &mut [Worker]) -> (SharedPass, Bench)
    requires region { desk.region.now ≡ region.now }
    requires may { (s : Shift) × (p : Progress) × CrewMayRise region.now s desk lent.old p }
    ensures rose { (s : Shift) (p : Progress) → CrewMayRise region.now s desk.entry lent.old p → CrewRose region.now s desk.entry result.0 result.1 lent.old lent.new p }
    ensures many { length lent.new ≡ length lent.old }
{
    let (mut bench, member) = desk.into_parts();
    bench.look(region);
    let_lent_leave(region, &mut bench, lent);
    let pass = bench.leave(region, member);
    (pass, bench)
}

/// The scavenger's operations of a phase, from its pass to its pass, and the bench at which they were made.
fn scavenge_seated<G: Gate>(
    region: &SharedRegion,
    pass: SharedPass,
    lent: &mut [Worker],
    outcomes: &mut Outcomes,
    ops: &[Op],
    gate: &G,
    out: &mut Records,
) -> (SharedPass, Bench)
    requires few { length ops.now < 2 ^ 32 }
    requires pass { IsPassOf region.now pass }
    requires may { (s : Shift) × (asked : List ℕ) × (p : Progress) × AreSound s.profile asked ops.now × CrewAt region.now s (scavenger_acts s.idle ops.now) (crew (standing_of_pass pass) lent.old (places_of outcomes.old) out.old) p }
    ensures did { (s : Shift) (asked : List ℕ) (p : Progress) → AreSound s.profile asked ops.now → CrewAt region.now s (scavenger_acts s.idle ops.now) (crew (standing_of_pass pass) lent.old (places_of outcomes.old) out.old) p
        → CrewHasLeft region.now s (scavenger_acts s.idle ops.now) result.0 result.1 (crew (standing_of_pass pass) lent.old (places_of outcomes.old) out.old) (crew (standing_of_pass result.0) lent.new (places_of outcomes.new) out.new) p }
    ensures many { length lent.new ≡ length lent.old }
{
    let mut desk = sit_down(region, pass, lent);
    scavenge(&mut desk, lent, outcomes, ops, gate, out);
    rise(region, desk, lent)
}

/// The scavenger sits down on a bench with the threads that are lent to it, does its operations of a phase, and all rise. The bench stays. Five loads, and two for each
/// lent thread, beside those of the operations.
pub(crate) fn keep_up<G: Gate>(
    region: &SharedRegion,
    scavenger: &mut Scavenger,
    ops: &[Op],
    gate: &G,
)
    requires few { length ops.now < 2 ^ 32 }
    requires may { MayScavenge region.now ops.now scavenger.old }
    ensures did { DidScavenge region.now ops.now scavenger.old scavenger.new }
{
    let Some(pass) = scavenger.pass.take() else {
        unreachable!();
    };
    let (pass, bench) = scavenge_seated(
        region,
        pass,
        &mut scavenger.lent,
        &mut scavenger.outcomes,
        ops,
        gate,
        &mut scavenger.out,
    );
    scavenger.pass = Some(pass);
    scavenger.bench = Some(bench);
}
