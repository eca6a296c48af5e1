//! How the parts of a kit are made: in the memory of what was made ahead, where that is large enough, and in new memory otherwise.
ghost use Rattle.std.specs.Prelude.{◌≡◌, ◌≤◌, ◌<◌, ◌+◌, ◌⊎◌, ℕ, List, Option, IfOk, All, true, Some, None, [], ◌++◌, length, slice_index, vec_capacity, false};
ghost use Rattle.std.specs.Prelude.{◌^◌};
ghost use Rattle.pas_profile.specs.{Rooms.shown, declared.profile.Profile.Profile as TheProfile};
ghost use Rattle.pas_trace.specs.{Plans.IsPlanOf, Acts.is_active};
ghost use Rattle.pas_utility.specs.{Outcomes.places_of, Pools.{threads_of, has_seat, outcomes_of}};
ghost use Rattle.pas_cache.specs.Caches.{cached};
ghost use Rattle.pas_answers.specs.{Names.{block_named, names_held}, Replays.{empty_cache, threads_of as threads_in, keepers_of as keepers_in}};
ghost use Rattle.pas_acts.specs.{Parts.AreRooms, NameBooks.{requests_in, room_for}};
ghost use Rattle.pas_shared.specs.declared.pass.SharedPass.{SharedPass as ThePass};
ghost use Rattle.pas_threads.specs.Kits.{AreEquipped, IsSupplied, IsTeamOf, TakesKeeper, AreKeptBy, most_records};
ghost use Rattle.pas_records.specs.Rooms.{records_in, room_of};

use crate::ahead::Spare;
use crate::keeper::Keeper;
use crate::phases::Team;
use crate::scavenger::Scavenger;
use crate::workers::Worker;
use pas_acts::names::{NameBook, Requests};
use pas_acts::{active, books_for, caches_for, outcomes_from};
use pas_cache::ThreadCache;
use pas_guard::GuardBook;
use pas_large::LargeIndex;
use pas_profile::{EventRoom, NoMemory};
use pas_records::{Records, room_for_replay};
use pas_shared::SharedPass;
use pas_trace::{Op, Phase, Plan};
use pas_utility::{Outcomes, Utility};
use std::alloc::Global;
use std::sync::Mutex;

/// Where the records of a whole replay have room: with this thread, so many in so many phases.
#[derive(Drop)]
struct WholeRoom {
    thread: usize,
    total: u32,
    phases: u32,
    /// Rooms that were made before, for that thread. None once it has them.
    records: Option<Records>,
    requests: Option<Requests>,
}

/// The operations of the first phase.
fn first_ops(phases: &[Phase]) -> &[Op] {
    phases
        .first()
        .map_or(&[] as &[Op], |phase| phase.as_slice())
}

/// The first thread that has an operation among these, or thread 1 where none has. What it says in a first phase is what a replay says first.
fn first_active(ops: &[Op], threads: u8) -> usize
    ensures thread { 1 ≤ result }
    ensures first { (k : ℕ) → 1 ≤ k → k < result → is_active ops.now k ≡ false }
    ensures active { (is_active ops.now result ≡ true) ⊎ ((result ≡ 1) × ((k : ℕ) → 1 ≤ k → k ≤ threads → is_active ops.now k ≡ false)) }
{
    let awake = active(ops);
    for below in 0..threads {
        if awake.get(below + 1) {
            return below as usize + 1;
        }
    }
    1
}

/// How many records a replay of the plan makes at most, which can be counted.
fn total_of(plan: &Plan) -> u32
    ensures total { result ≡ plan.now.total }
    ensures counted { plan.now.total < 2 ^ 32 }
{
    plan.total
}

/// Each of the first rooms moves into the memory of the other at its place, where that is large enough.
pub(crate) fn move_rooms(rooms: &mut Vec<EventRoom>, before: Vec<EventRoom>)
    requires { All (λ room. shown room ≡ []) rooms.old.items }
    ensures { (sizes : ℕ → Option ℕ) (count : ℕ) → AreRooms sizes count rooms.old.items → AreRooms sizes count rooms.new.items }
{
    let mut actor = 0;
    for other in before {
        if actor == rooms.len() {
            return;
        }
        rooms[actor].move_into(other);
        actor += 1;
    }
}

/// Room for the records of a thread with this bound. That of one thread is large enough for the whole replay: where nothing was said before, what this thread
/// says can become the record of the replay without being moved. It lies in the memory that was made for it before, where that is large enough.
fn records_for(
    alloc: Global,
    thread: usize,
    bound: u32,
    whole: &mut WholeRoom,
) -> Result<Records, NoMemory>
    ensures empty { IfOk result (λ out. records_in out ≡ []) }
    ensures size { IfOk result (λ out. bound ≤ room_of out) }
    ensures whole { thread ≡ whole.old.thread → IfOk result (λ out. whole.old.total + whole.old.phases + 1 ≤ room_of out) }
    ensures others { (whole.new.thread ≡ whole.old.thread) × (whole.new.total ≡ whole.old.total) × (whole.new.phases ≡ whole.old.phases) }
{
    if thread != whole.thread {
        return Records::try_new(alloc, bound);
    }
    let mut out = room_for_replay(alloc, bound.max(whole.total), whole.phases)?;
    if let Some(before) = whole.records.take() {
        out.move_into(before);
    }
    Ok(out)
}

/// Room for so many requests of a thread, in the memory that was made for it before, where that is large enough.
fn requests_for(
    alloc: Global,
    thread: usize,
    bound: u32,
    whole: &mut WholeRoom,
) -> Result<Requests, NoMemory>
    ensures empty { IfOk result (λ requests. requests_in requests ≡ []) }
    ensures room { IfOk result (λ requests. room_for requests ≡ bound) }
{
    let mut requests = Requests::try_new(alloc, bound)?;
    if thread == whole.thread {
        if let Some(before) = whole.requests.take() {
            requests.move_into(before);
        }
    }
    Ok(requests)
}

/// The keeper of this thread, of so many, which has the first of these passes and of these books. It may make as many records as events, by its bound, and two
/// for each guarded request of its thread, which is no more than that again. None where no pass is left.
fn keeper_for(
    alloc: Global,
    passes: &mut Vec<SharedPass>,
    books: &mut Vec<GuardBook>,
    bounds: &[u32],
    threads: usize,
    thread: usize,
) -> Result<Option<Keeper>, NoMemory>
    requires books { length books.old.items ≡ length passes.old.items }
    requires bound { 0 < length passes.old.items → threads + thread < length bounds.now }
    ensures { IfOk result (TakesKeeper passes.old.items passes.new.items books.old.items books.new.items (most_records (slice_index bounds.now (threads + thread)))) }
{
    if passes.is_empty() {
        return Ok(None);
    }
    let pass = passes.remove(0);
    let book = books.remove(0);
    let out = Records::try_new(alloc, bounds[threads + thread].saturating_mul(2))?;
    Ok(Some(Keeper { pass, book, out }))
}

/// The workers of the threads, from thread 1 on, which have these passes and caches in order, and the first of them keepers with these passes and books. The
/// bounds are those of all actors.
fn workers_for(
    alloc: Global,
    passes: Vec<SharedPass>,
    mut kept: Vec<SharedPass>,
    mut books: Vec<GuardBook>,
    mut caches: Vec<ThreadCache>,
    bounds: &[u32],
    mut whole: WholeRoom,
) -> Result<Vec<Worker>, NoMemory>
    requires bounds { length passes.items + length kept.items < length bounds.now }
    requires books { length books.items ≡ length kept.items }
    requires caches { length caches.items ≡ length passes.items }
    requires unused { All (λ cache. cached cache ≡ empty_cache) caches.items }
    ensures workers { IfOk result (λ workers. AreEquipped bounds.now passes.items workers.items) }
    ensures kept { IfOk result (λ workers. AreKeptBy bounds.now (length passes.items) kept.items books.items workers.items) }
    ensures places { IfOk result (λ workers. length passes.items ≤ vec_capacity workers) }
{
    let threads = passes.len();
    let Ok(mut workers) = Vec::with_capacity(alloc, threads) else {
        return Err(NoMemory);
    };
    caches.reverse();
    for pass in passes {
        let Some(cache) = caches.pop() else {
            unreachable!();
        };
        let thread = workers.len() + 1;
        let bound = bounds[thread];
        let out = records_for(alloc, thread, bound, &mut whole)?;
        let requests = requests_for(alloc, thread, bound, &mut whole)?;
        let keeper = keeper_for(alloc, &mut kept, &mut books, bounds, threads, thread)?;
        workers.push_reserved(Worker {
            pass: Some(pass),
            cache,
            requests,
            out,
            keeper,
            member: None,
            bench: None,
        });
    }
    Ok(workers)
}

/// The scavenger, with room for so many records, to which as many as so many threads may be lent.
fn scavenger_with(
    alloc: Global,
    pass: SharedPass,
    outcomes: Outcomes,
    bound: u32,
    threads: u8,
) -> Result<Scavenger, NoMemory>
    ensures ready { (f : TheProfile) → places_of outcomes ≡ f.pages → IfOk result (λ scavenger. IsSupplied f pass bound scavenger) }
    ensures places { IfOk result (λ scavenger. threads ≤ vec_capacity scavenger.lent) }
{
    let out = Records::try_new(alloc, bound)?;
    let Ok(lent) = Vec::with_capacity(alloc, threads as usize) else {
        return Err(NoMemory);
    };
    Ok(Scavenger {
        pass: Some(pass),
        outcomes,
        out,
        lent,
        bench: None,
    })
}

/// A book of which there is room for the names below the limit: the one that was made before, where it has room for them.
fn book_of(alloc: Global, limit: usize, before: NameBook) -> Result<NameBook, NoMemory>
    requires { (name : ℕ) → block_named before.names name ≡ None }
    ensures empty { IfOk result (λ book. (name : ℕ) → block_named book.names name ≡ None) }
    ensures room { IfOk result (λ book. limit ≤ names_held book.names) }
{
    if before.room() >= limit {
        return Ok(before);
    }
    drop(before);
    NameBook::try_new(alloc, limit)
}

/// An index for each of so many heaps, which holds nothing. NoMemory where memory was wanting; an index has some 4 KB.
pub(crate) fn indexes_for(alloc: Global, heaps: u8) -> Result<Vec<Mutex<LargeIndex>>, NoMemory> {
    let Ok(mut indexes) = Vec::with_capacity(alloc, heaps as usize) else {
        return Err(NoMemory);
    };
    for heap in 0..heaps {
        indexes.push_reserved(Mutex::new(LargeIndex::new()));
    }
    Ok(indexes)
}

/// The team of a plan, whose scavenger has the first pass, and whose threads and then keepers have the others in order. Its names and the rooms of the thread that
/// speaks first lie in what was made before, where that is large enough.
pub(crate) fn team_for(
    alloc: Global,
    plan: &Plan,
    utility: &mut Utility,
    first: SharedPass,
    others: Vec<SharedPass>,
    before: Spare,
) -> Result<Team, NoMemory>
    requires plan { (text : List ℕ) × IsPlanOf text plan.now }
    requires passes { length others.items ≡ threads_in plan.now + keepers_in plan.now }
    requires threads { plan.now.profile.threads ≤ threads_of utility.old }
    requires seats { (k : ℕ) → 1 ≤ k → k ≤ threads_in plan.now → has_seat utility.old k ≡ true }
    requires outcomes { outcomes_of utility.old ≡ Some plan.now.profile.pages }
    ensures { IfOk result (λ team. (own : List ThePass) × (kept : List ThePass) × (others.items ≡ own ++ kept) × (length own ≡ threads_in plan.now) × IsTeamOf plan.now first own kept team) }
{
    let bounds = plan.bounds.as_slice();
    let phases = plan.phases.as_slice();
    let count = plan.profile.threads;
    let total = total_of(plan);
    let Spare {
        book,
        records,
        requests,
    } = before;
    let caches = caches_for(alloc, utility, count)?;
    let whole = WholeRoom {
        thread: first_active(first_ops(phases), count),
        total,
        phases: u32::try_from(phases.len()).unwrap_or(u32::MAX),
        records: Some(records),
        requests: Some(requests),
    };
    let mut others = others;
    let Ok(kept) = others.split_off(count as usize) else {
        return Err(NoMemory);
    };
    let books = books_for(alloc, plan)?;
    let threads = workers_for(alloc, others, kept, books, caches, bounds, whole)?;
    let outcomes = outcomes_from(utility);
    let scavenger = scavenger_with(alloc, first, outcomes, bounds[0], count)?;
    let book = book_of(alloc, plan.names_limit, book)?;
    let Ok(hands) = Vec::with_capacity(alloc, count as usize + 1) else {
        return Err(NoMemory);
    };
    Ok(Team {
        threads,
        scavenger,
        hands,
        book,
    })
}
