//! The threads that are idle in a phase, and lent to the scavenger's worker: they sit down on its bench, are stopped there, and leave.
ghost use Rattle.std.specs.Prelude.{◌≡◌, ◌≢◌, ◌+◌, ◌<◌, ◌≤◌, ◌∷◌, [], ℕ, Bool, List, length};
ghost use Rattle.pas_profile.specs.declared.profile.Profile.{Profile as TheProfile};
ghost use Rattle.pas_records.specs.Rooms.{records_in, room_of};
ghost use Rattle.pas_cache.specs.Caches.{cached};
ghost use Rattle.pas_trace.specs.Acts.{StopsIdle, idle_stops};
ghost use Rattle.pas_answers.specs.Answers.{Progress};
ghost use Rattle.pas_acts.specs.{Works.Later, Turns.RestsAt, AtDesks.{here, told_if, ThreadActs}};
ghost use Rattle.pas_shared.specs.{Ruled.all_actors, Benches.{rows_on, IsBenchOf}, declared.{bench_desk.BenchHome.BenchHome, rule.Entry.Entry}};
ghost use Rattle.pas_threads.specs.{Turns.Pushed, Hands.HasPass, Lent.{Shift, AreBeside, AreLent, AreOfCrew, TellAs, home_at, HasSeat, AreSeated, IsDeskAt}};
ghost use Rattle.pas_threads.specs.Lent.{WorkerSits, SitsLent, StopsLent, StoppedLent, MayLeave, HasLeave, MayLeaveAll, HaveLeave};

use crate::workers::Worker;
use pas_acts::at_desk::{SCAVENGER, stop_if_idle};
use pas_cache::ThreadCache;
use pas_records::{Record, Records, Said};
use pas_shared::{Bench, BenchDesk, SharedRegion};
use pas_steps::Desk;

/// Seats the thread, which is lent to the scavenger, on its bench. One load.
fn seat_one(region: &SharedRegion, bench: &mut Bench, worker: &mut Worker)
    requires of { IsBenchOf region.now bench.old }
    requires has { HasPass region.now worker.old.pass }
    ensures of { IsBenchOf region.now bench.new }
    ensures seated { HasSeat region.now worker.old worker.new (rows_on bench.old) (rows_on bench.new) }
{
    let Some(pass) = worker.pass.take() else {
        unreachable!();
    };
    worker.member = Some(bench.seat(region, pass));
}

/// Seats the threads that are lent to the scavenger on its bench. One load for each.
pub(crate) fn seat_lent(region: &SharedRegion, bench: &mut Bench, lent: &mut [Worker])
    requires of { IsBenchOf region.now bench.old }
    requires lent { (s : Shift) × (p : Progress) × AreLent region.now s lent.old p }
    ensures of { IsBenchOf region.now bench.new }
    ensures seated { (s : Shift) (p : Progress) → AreLent region.now s lent.old p → AreOfCrew s 0 0 (all_actors (rows_on bench.old)) → TellAs (rows_on bench.old) p.list
        → AreSeated region.now s lent.old lent.new (rows_on bench.new) p }
    ensures many { length lent.new ≡ length lent.old }
{
    for index in 0..lent.len() {
        seat_one(region, bench, &mut lent[index]);
    }
}

/// Stops the thread of this desk, where it was idle for so many epochs, now that it is this one. The records of its flush come to its own, and that it was
/// stopped is said in `out`.
fn stop_and_tell<D: Desk>(
    desk: &mut D,
    cache: &mut ThreadCache,
    epochs: u64,
    epoch: u64,
    own: &mut Records,
    out: &mut Records,
)
    requires rests { (f : TheProfile) × (k : ℕ) × (later : Later) × (p : Progress) × RestsAt f k (D.standing desk.old) (cached cache.old) own.old later p }
    requires room { length (records_in out.old) < room_of out.old }
    ensures stops { (f : TheProfile) (k : ℕ) (later : Later) (p : Progress) → RestsAt f k (D.standing desk.old) (cached cache.old) own.old later p → p.epoch ≡ epoch
        → (stopped : Bool) × ThreadActs f k (StopsIdle k epochs ∷ []) [] (told_if stopped k) (here (D.standing desk.old) (cached cache.old) own.old) (here (D.standing desk.new) (cached cache.new) own.new) later p × Pushed 0 (told_if stopped k) out.old out.new }
    ensures home { D.home desk.new ≡ D.home desk.old }
{
    if stop_if_idle(desk, cache, epochs, epoch, own) {
        out.push(Record::Said(SCAVENGER, Said::Stopped(desk.actor())));
    }
}

/// The thread, which was lent to the scavenger, takes its place at the desk, is stopped where it was idle for so many epochs, now that it is this one, and gives
/// the place back. That it was stopped is said in `out`.
fn stop_lent(
    desk: &mut BenchDesk<'_>,
    worker: &mut Worker,
    epochs: u64,
    epoch: u64,
    out: &mut Records,
)
    requires may { (h : BenchHome) × (f : TheProfile) × (k : ℕ) × (later : Later) × (p : Progress) × IsDeskAt h desk.old p × WorkerSits h.region h.row.actors f k worker.old later p × (desk.old.place.member.actor ≢ k) × (p.epoch ≡ epoch) }
    requires room { length (records_in out.old) < room_of out.old }
    ensures stops { (h : BenchHome) (f : TheProfile) (k : ℕ) (later : Later) (p : Progress) → IsDeskAt h desk.old p → WorkerSits h.region h.row.actors f k worker.old later p → p.epoch ≡ epoch → StopsLent h f k epochs desk.new.place.bench worker.old worker.new out.old out.new later p }
    ensures home { home_at desk.new ≡ home_at desk.old }
    ensures member { desk.new.place.member ≡ desk.old.place.member }
{
    let Some(member) = worker.member.take() else {
        unreachable!();
    };
    let risen = desk.replace(member);
    stop_and_tell(desk, &mut worker.cache, epochs, epoch, &mut worker.out, out);
    worker.member = Some(desk.replace(risen));
}

/// Stops each of the lent threads, in order, where it was idle for so many epochs, now that it is this one. What a stop's flush says comes to the
/// thread's own records, and that the thread was stopped to `out`.
pub(crate) fn stop_idle(
    desk: &mut BenchDesk<'_>,
    lent: &mut [Worker],
    epochs: u64,
    epoch: u64,
    out: &mut Records,
)
    requires lent { (h : BenchHome) × (s : Shift) × (p : Progress) × IsDeskAt h desk.old p × AreBeside (SitsLent h.region h.row.actors s) s lent.old p × (desk.old.place.member.actor ≡ 0) × (p.epoch ≡ epoch) }
    requires room { length (records_in out.old) + length lent.old ≤ room_of out.old }
    ensures stops { (h : BenchHome) (s : Shift) (p : Progress) → IsDeskAt h desk.old p → AreBeside (SitsLent h.region h.row.actors s) s lent.old p → p.epoch ≡ epoch → StoppedLent h s (idle_stops epochs s.idle) desk.new.place.bench lent.old lent.new out.old out.new (length lent.old) p }
    ensures home { home_at desk.new ≡ home_at desk.old }
    ensures member { desk.new.place.member ≡ desk.old.place.member }
    ensures many { length lent.new ≡ length lent.old }
{
    for index in 0..lent.len() {
        stop_lent(desk, &mut lent[index], epochs, epoch, out);
    }
}

/// Lets the thread leave the bench, on which nobody made a step since the last look: it has its pass again. One load.
fn let_leave(region: &SharedRegion, bench: &mut Bench, worker: &mut Worker)
    requires of { IsBenchOf region.now bench.old }
    requires may { MayLeave region.now (rows_on bench.old) worker.old }
    ensures of { IsBenchOf region.now bench.new }
    ensures left { HasLeave region.now worker.old worker.new (rows_on bench.old) (rows_on bench.new) }
{
    let Some(member) = worker.member.take() else {
        unreachable!();
    };
    worker.pass = Some(bench.leave(region, member));
}

/// Lets the lent threads leave the bench, on which nobody made a step since the last look: each has its pass again. One load for each.
pub(crate) fn let_lent_leave(region: &SharedRegion, bench: &mut Bench, lent: &mut [Worker])
    requires of { IsBenchOf region.now bench.old }
    requires may { (s : Shift) × (actors : List ℕ) × (base : List Entry) × (p : Progress) × MayLeaveAll region.now s lent.old actors base (rows_on bench.old) p }
    ensures of { IsBenchOf region.now bench.new }
    ensures left { (s : Shift) (actors : List ℕ) (base : List Entry) (p : Progress) → MayLeaveAll region.now s lent.old actors base (rows_on bench.old) p → HaveLeave region.now s lent.old lent.new base (rows_on bench.new) p }
    ensures many { length lent.new ≡ length lent.old }
{
    for index in 0..lent.len() {
        let_leave(region, bench, &mut lent[index]);
    }
}
