//! The workers of the threads at a shared region.
ghost use Rattle.std.specs.Prelude.{◌≡◌, ◌<◌, ◌^◌, ℕ, All, length, get_or};
ghost use Rattle.pas_answers.specs.Names.{names_held};
ghost use Rattle.pas_shared.specs.Passes.{IsPassOf};
ghost use Rattle.pas_threads.specs.{Seats.{PairSits, PairMayRise, PairRose}, Pairs.{IsKeeperOf, MayDoPhase, DidPhase}, Taken.{HasTaken, IsWithin, IsEmptied}};

use crate::keeper::{Beside, Keeper, Seated, let_keeper_leave, seat_keeper};
use pas_acts::gate::Gate;
use pas_acts::names::{NameBook, Requests};
use pas_acts::own::work;
use pas_answers::Remake;
use pas_cache::ThreadCache;
use pas_large::{LargeIndex, SharedDoor};
use pas_records::Records;
use pas_shared::{Bench, Member, SharedPass, SharedRegion};
use pas_trace::Op;
use std::sync::{Mutex, Wait};

/// A thread of the replay: its pass while it doesn't sit at the region, its cache, its requests of the phase, and its records; and its keeper in a guarded
/// replay, whose steps the thread's worker makes.
#[derive(Drop)]
pub(crate) struct Worker {
    pub(crate) pass: Option<SharedPass>,
    pub(crate) cache: ThreadCache,
    pub(crate) requests: Requests,
    pub(crate) out: Records,
    pub(crate) keeper: Option<Keeper>,
    /// While it is lent: what it is on the scavenger's bench, in place of its pass.
    pub(crate) member: Option<Member>,
    /// After its operations of a phase: the bench at which they were made, and on which nobody sits any more.
    pub(crate) bench: Option<Bench>,
}

/// Both actors of a worker on a bench of their own.
#[derive(Drop)]
pub(crate) struct Pair {
    bench: Bench,
    member: Member,
    keeper: Option<Seated>,
}

/// The thread sits down on a bench, and its keeper beside it, if it has one, in one row. Four loads, and three without a keeper.
fn sit_down(region: &SharedRegion, pass: SharedPass, keeper: Option<Keeper>) -> Pair
    requires pass { IsPassOf region.now pass }
    requires keeper { IsKeeperOf region.now keeper }
    ensures sits { PairSits region.now pass keeper result.bench result.member result.keeper }
{
    let mut bench = Bench::open(region);
    let keeper = seat_keeper(region, &mut bench, keeper);
    let member = bench.seat(region, pass);
    bench.look(region);
    Pair {
        bench,
        member,
        keeper,
    }
}

/// Both rise, once the bench has looked; it is left. Three loads, and two without a keeper.
fn rise(region: &SharedRegion, pair: Pair) -> (Bench, SharedPass, Option<Keeper>)
    requires may { PairMayRise region.now pair.bench pair.member pair.keeper }
    ensures rose { PairRose region.now pair.bench pair.member pair.keeper result.0 result.1 result.2 }
{
    let Pair {
        mut bench,
        member,
        keeper,
    } = pair;
    bench.look(region);
    let keeper = let_keeper_leave(region, &mut bench, keeper);
    let pass = bench.leave(region, member);
    (bench, pass, keeper)
}

/// The thread sits down on a bench, and its keeper beside it, if it has one. It performs its operations of a phase, of which the keeper tries the guarded requests
/// first, with the indexes that all threads share as its door, and both rise. So they make their steps at one seat, one after the other. It waits for the lock of an
/// index where it makes a request for whole pages, or hands on what it noted, and nowhere else.
pub(crate) fn perform<R: Wait, G: Gate, M: Remake>(
    rt: &R,
    region: &SharedRegion,
    indexes: &[Mutex<LargeIndex>],
    book: &NameBook,
    worker: &mut Worker,
    ops: &[Op],
    gate: &G,
    remaker: &M,
)
    requires few { length ops.now < 2 ^ 32 }
    requires may { MayDoPhase region.now book.now ops.now worker.old }
    ensures did { DidPhase region.now book.now ops.now worker.old worker.new }
{
    let Some(pass) = worker.pass.take() else {
        unreachable!();
    };
    let Pair {
        bench,
        member,
        keeper,
    } = sit_down(region, pass, worker.keeper.take());
    let mut desk = region.bench_desk(bench, member);
    let mut door = SharedDoor::new(rt, indexes);
    let mut beside = Beside { keeper };
    work(
        &mut desk,
        &mut door,
        book,
        &mut worker.cache,
        remaker,
        &mut beside,
        &mut worker.requests,
        ops,
        gate,
        &mut worker.out,
    );
    let (bench, member) = desk.into_parts();
    let Beside { keeper } = beside;
    let (bench, pass, keeper) = rise(
        region,
        Pair {
            bench,
            member,
            keeper,
        },
    );
    worker.keeper = keeper;
    worker.pass = Some(pass);
    worker.bench = Some(bench);
}

/// The book takes the requests of all workers over, after a phase.
pub(crate) fn take_all(book: &mut NameBook, workers: &mut [Worker])
    requires { All (IsWithin (names_held book.old.names)) workers.old }
    ensures taken { HasTaken book.old book.new workers.old }
    ensures held { names_held book.new.names ≡ names_held book.old.names }
    ensures each { (i : ℕ) (d : Worker) → i < length workers.old → IsEmptied (get_or workers.old i d) (get_or workers.new i d) }
    ensures many { length workers.new ≡ length workers.old }
{
    let Some((worker, others)) = workers.split_first_mut() else {
        return;
    };
    book.take(&mut worker.requests);
    take_all(book, others);
}
