//! What threads do one after the other, while nobody else makes a step: the reads of the epoch before a phase, the stops at the close, and what is
//! gathered of them.
ghost use Rattle.std.specs.Prelude.{◌≡◌, ◌+◌, ◌-◌, ◌<◌, ◌≤◌, ◌++◌, ℕ, List, [], true, false, None, Some, length, get_or};
ghost use Rattle.pas_profile.specs.declared.profile.Profile.{Profile as TheProfile};
ghost use Rattle.pas_records.specs.Rooms.{records_in, room_of};
ghost use Rattle.pas_answers.specs.Answers.{Progress};
ghost use Rattle.pas_cache.specs.Caches.{cached};
ghost use Rattle.pas_trace.specs.Acts.{Wakes, Ends};
ghost use Rattle.pas_shared.specs.Ledgers.{IsLedgerOf, so_far};
ghost use Rattle.pas_acts.specs.{Works.Later, Keepers.LaterKept};
ghost use Rattle.pas_threads.specs.{Sessions.{Session, WorkerHas, AreResting}, Closing.{ClosedFirst, ClosesNext, MayClose, MayCloseAt, ClosedSo}};
ghost use Rattle.pas_threads.specs.{Pairs.{no_more, AreGuarded, IsButKeeper, KeeperStands, KeeperLowered}, Turns.{Turn, WokeAll, said_by_all, said_kept}};
ghost use Rattle.pas_threads.specs.{Turns.{said_by_keepers, IsOwnGathered, IsKeptGathered, WereGathered}, declared.keeper.Keeper.Keeper as TheKeeper};
ghost use Rattle.pas_threads.specs.declared.workers.Worker.{Worker as TheWorker};

use crate::keeper::Keeper;
use crate::scavenger::Scavenger;
use crate::settling::settle;
use crate::workers::Worker;
use pas_acts::keepers::lower_all;
use pas_acts::turns::{begin, end};
use pas_bits::Mask4;
use pas_records::Records;
use pas_shared::{Ledger, SharedRegion};

/// The thread sits down, reads the epoch, and rises. One step.
fn wake(region: &SharedRegion, worker: &mut Worker)
    requires rests { (f : TheProfile) × (k : ℕ) × (later : Later) × (p : Progress) × WorkerHas region.now f k worker.old later p }
    ensures woke { (f : TheProfile) (k : ℕ) (later : Later) (p : Progress) → WorkerHas region.now f k worker.old later p
        → (turn : Turn region.now f k (Wakes k) [] worker.old worker.new later p) × (turn.did.does.own ≡ []) }
{
    let Some(pass) = worker.pass.take() else {
        unreachable!();
    };
    let mut desk = region.desk(pass);
    begin(&mut desk, &mut worker.cache);
    worker.pass = Some(desk.into_pass());
}

/// Each thread of the mask reads the epoch, in order. One step each.
pub(crate) fn wake_all(region: &SharedRegion, threads: &mut [Worker], awake: Mask4)
    requires few { length threads.old < 32 }
    requires rest { (f : TheProfile) × (later : ℕ → ℕ) × (p : Progress) × AreResting region.now f threads.old later p }
    ensures woke { (f : TheProfile) (later : ℕ → ℕ) (p : Progress) → AreResting region.now f threads.old later p → WokeAll region.now f awake threads.old threads.new later p }
    ensures many { length threads.new ≡ length threads.old }
{
    for index in 0..threads.len() {
        if awake.get(index as u8 + 1) {
            wake(region, &mut threads[index]);
        }
    }
}

/// The thread sits down, is stopped, and rises. What its flush says comes to its records.
fn stop(region: &SharedRegion, worker: &mut Worker)
    requires rests { (f : TheProfile) × (k : ℕ) × (later : Later) × (p : Progress) × WorkerHas region.now f k worker.old later p }
    ensures stopped { (f : TheProfile) (k : ℕ) (later : Later) (p : Progress) → WorkerHas region.now f k worker.old later p → Turn region.now f k (Ends k) [] worker.old worker.new later p }
    ensures empty { (cached worker.new.cache).locals ≡ [] }
{
    let Some(pass) = worker.pass.take() else {
        unreachable!();
    };
    let mut desk = region.desk(pass);
    end(&mut desk, &mut worker.cache, &mut worker.out);
    worker.pass = Some(desk.into_pass());
}

/// The keeper of the worker, which has one, sits down, lowers all its guards, and rises.
fn lower_one(region: &SharedRegion, worker: &mut Worker)
    requires stands { (f : TheProfile) × (actor : ℕ) × (p : Progress) × (keeper : TheKeeper) × (worker.old.keeper ≡ Some keeper) × KeeperStands region.now f actor keeper no_more p }
    ensures but { IsButKeeper worker.old worker.new }
    ensures one { (keeper : TheKeeper) → worker.old.keeper ≡ Some keeper → (after : TheKeeper) × (worker.new.keeper ≡ Some after)
        × ((f : TheProfile) (actor : ℕ) (later : LaterKept) (p : Progress) → KeeperStands region.now f actor keeper later p → KeeperLowered region.now f actor keeper after later p) }
{
    let Some(keeper) = worker.keeper.take() else {
        unreachable!();
    };
    let Keeper {
        pass,
        mut book,
        mut out,
    } = keeper;
    let mut desk = region.desk(pass);
    lower_all(&mut desk, &mut book, &mut out);
    let pass = desk.into_pass();
    worker.keeper = Some(Keeper { pass, book, out });
}

/// How many actors have an act at the close: all threads, and as many keepers, where they have some.
fn closing_actors(threads: &[Worker]) -> usize
    requires { length threads.now < 32 }
    ensures { (keepers : ℕ) → AreGuarded keepers threads.now → result ≡ length threads.now + keepers }
{
    if threads.is_empty() {
        return 0;
    }
    if threads[0].keeper.is_some() {
        return threads.len() + threads.len();
    }
    threads.len()
}

/// The actor at this place makes its act of the close: the thread there is stopped, or, behind all threads, the keeper there lowers its guards.
fn close_one(region: &SharedRegion, workers: &mut [Worker], place: usize)
    requires place { place < length workers.old + length workers.old }
    requires so_far { (s : Session) × (old : List TheWorker) × (p : Progress) × MayCloseAt s place old workers.old × ClosedFirst region.now s place old workers.old p }
    ensures next { (s : Session) (old : List TheWorker) (p : Progress) → MayCloseAt s place old workers.old → (so : ClosedFirst region.now s place old workers.old p)
        → ClosesNext region.now s place old workers.old workers.new p so }
    ensures many { length workers.new ≡ length workers.old }
{
    if place < workers.len() {
        stop(region, &mut workers[place]);
        return;
    }
    let behind = place - workers.len();
    lower_one(region, &mut workers[behind]);
}

/// Each thread is stopped, in order, then the keeper of each lowers all its guards, and the ledger is settled after each. There are no keepers in a replay that isn't guarded.
pub(crate) fn close_all(
    region: &SharedRegion,
    ledger: &mut Ledger,
    scavenger: &mut Scavenger,
    threads: &mut [Worker],
)
    requires few { length threads.old < 32 }
    requires of { IsLedgerOf region.now ledger.old }
    requires may { (s : Session) × (p : Progress) × MayClose region.now s scavenger.old.pass threads.old (so_far ledger.old) p }
    ensures of { IsLedgerOf region.now ledger.new }
    ensures scavenger { scavenger.new ≡ scavenger.old }
    ensures closed { (s : Session) (p : Progress) → MayClose region.now s scavenger.old.pass threads.old (so_far ledger.old) p
        → ClosedSo region.now s (s.threads + s.keepers) threads.old threads.new (so_far ledger.old) (so_far ledger.new) p }
    ensures many { length threads.new ≡ length threads.old }
{
    let actors = closing_actors(threads);
    for place in 0..actors {
        close_one(region, threads, place);
        settle(region, ledger, scavenger, threads);
    }
}

/// What the workers said for their threads comes to the end of `out`, one worker after the other.
fn gather_own(threads: &mut [Worker], out: &mut Records)
    requires room { length (records_in out.old) + length (said_by_all threads.old) ≤ room_of out.old }
    ensures added { records_in out.new ≡ records_in out.old ++ said_by_all threads.old }
    ensures room { room_of out.new ≡ room_of out.old }
    ensures kept { said_by_keepers threads.new ≡ said_by_keepers threads.old }
    ensures gathered { (i : ℕ) (d : TheWorker) → i < length threads.old → IsOwnGathered (get_or threads.old i d) (get_or threads.new i d) }
    ensures many { length threads.new ≡ length threads.old }
{
    let Some((worker, others)) = threads.split_first_mut() else {
        return;
    };
    out.append(&mut worker.out);
    gather_own(others, out);
}

/// What the keeper of the worker said comes to the end of `out`, if it has one.
fn gather_kept_one(worker: &mut Worker, out: &mut Records)
    requires room { length (records_in out.old) + length (said_kept worker.old) ≤ room_of out.old }
    ensures added { records_in out.new ≡ records_in out.old ++ said_kept worker.old }
    ensures room { room_of out.new ≡ room_of out.old }
    ensures gathered { IsKeptGathered worker.old worker.new }
{
    match &mut worker.keeper {
        Some(keeper) => out.append(&mut keeper.out),
        None => {}
    }
}

/// What their keepers said comes to the end of `out`, in the same order.
fn gather_kept(threads: &mut [Worker], out: &mut Records)
    requires room { length (records_in out.old) + length (said_by_keepers threads.old) ≤ room_of out.old }
    ensures added { records_in out.new ≡ records_in out.old ++ said_by_keepers threads.old }
    ensures room { room_of out.new ≡ room_of out.old }
    ensures gathered { (i : ℕ) (d : TheWorker) → i < length threads.old → IsKeptGathered (get_or threads.old i d) (get_or threads.new i d) }
    ensures many { length threads.new ≡ length threads.old }
{
    let Some((worker, others)) = threads.split_first_mut() else {
        return;
    };
    gather_kept_one(worker, out);
    gather_kept(others, out);
}

/// All that the workers said comes to the end of `out`: for their threads, one worker after the other, and then for their keepers.
pub(crate) fn gather(threads: &mut [Worker], out: &mut Records)
    requires { length (records_in out.old) + (length (said_by_all threads.old) + length (said_by_keepers threads.old)) ≤ room_of out.old }
    ensures { WereGathered threads.old threads.new out.old out.new }
{
    gather_own(threads, out);
    gather_kept(threads, out);
}
