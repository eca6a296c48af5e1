//! The operations of one thread in a phase, at any desk.
ghost use Rattle.std.specs.Prelude.{◌≡◌, ◌+◌, ◌<◌, ◌≤◌, ◌^◌, ◌++◌, ℕ, List, [], length, option_and_then};
ghost use Rattle.pas_profile.specs.declared.profile.Profile.{Profile as TheProfile};
ghost use Rattle.pas_cache.specs.Caches.{cached};
ghost use Rattle.pas_trace.specs.{Asked.{request_of, freed_of}, Acts.{Act, own_acts}, declared.plan.Op.Op as TheOp};
ghost use Rattle.pas_answers.specs.{Answers.Progress, Names.MayPack, Calls.{what_of, named_with, named_by, MayStand}};
ghost use Rattle.pas_acts.specs.{NameBooks.{requests_in, room_for, names_of, name_asked, ArePlaced, known_in, table}, Works.{keeps, Later}, Keepers.LaterKept};
ghost use Rattle.pas_acts.specs.{AtDesks.here, Pairs.{head_acts, for_guards, MayServe, MayWork, DoesWork, PairActs, PairAt, PairWorks}};

use crate::at_desk;
use crate::gate::Gate;
use crate::keepers::Tries;
use crate::names::{NameBook, Request, Requests};
use pas_answers::Remake;
use pas_cache::ThreadCache;
use pas_large::Door;
use pas_profile::Block;
use pas_records::Records;
use pas_steps::Desk;
use pas_trace::{Op, Task, What, Work};

/// What the name that the task frees or reallocates stands for to the thread.
#[inline(always)]
fn freed(book: &NameBook, requests: &Requests, task: Task) -> Option<Block>
    requires { ArePlaced book.now 0 (names_of (requests_in requests.now)) }
    ensures { result ≡ option_and_then (known_in book.now requests.now) (freed_of task) }
{
    match task {
        Task::Free { name, .. } => book.meaning(requests, name),
        Task::Remake { old, .. } => book.meaning(requests, old),
        _ => None,
    }
}

/// Keeps what the name that the task asked for came to.
#[inline(always)]
fn keep(requests: &mut Requests, task: Task, came: Option<Block>)
    requires room { length (requests_in requests.old) + length (name_asked (what_of task)) ≤ room_for requests.old }
    requires packs { MayPack came }
    ensures kept { requests_in requests.new ≡ requests_in requests.old ++ named_with (request_of task) came }
    ensures room { room_for requests.new ≡ room_for requests.old }
{
    match task {
        Task::Request { name, .. } => requests.push(Request::of(name, came)),
        Task::Guarded { name, .. } => requests.push(Request::of(name, came)),
        Task::Remake { name, .. } => requests.push(Request::of(name, came)),
        _ => {}
    }
}

/// The desk's thread does the task of an operation: what its name came to. A guarded request is tried by the thread's keeper first, and where that gave no block the
/// thread makes it as any other.
#[inline(always)]
fn serve<D: Desk, O: Door, M: Remake, K: Tries<D>>(
    desk: &mut D,
    door: &mut O,
    cache: &mut ThreadCache,
    remaker: &M,
    keeper: &mut K,
    task: Task,
    meant: Option<Block>,
    out: &mut Records,
) -> Option<Block>
    requires stands { (f : TheProfile) × (k : ℕ) × (op : TheOp) × (next : List Act) × (later : Later) × (more : LaterKept) × (p : Progress)
        × (op.what ≡ what_of task) × MayServe f k op next meant (here (D.standing desk.old) (cached cache.old) out.old) (K.has desk.old keeper.old) later more p }
    ensures serves { (f : TheProfile) (k : ℕ) (op : TheOp) (next : List Act) (later : Later) (more : LaterKept) (p : Progress) → op.what ≡ what_of task
        → MayServe f k op next meant (here (D.standing desk.old) (cached cache.old) out.old) (K.has desk.old keeper.old) later more p
        → PairActs f op.actor k (head_acts op) (named_by op.what result) (here (D.standing desk.old) (cached cache.old) out.old)
        (here (D.standing desk.new) (cached cache.new) out.new) (K.has desk.old keeper.old) (K.has desk.new keeper.new) later (for_guards next more) p × MayStand f result }
    ensures home { D.home desk.new ≡ D.home desk.old }
    ensures keeps_home { K.home keeper.new ≡ K.home keeper.old }
{
    match task {
        Task::Guarded {
            name,
            heap,
            size,
            align,
            ..
        } => match keeper.try_guarded(desk, name, heap, size, align) {
            Some(block) => {
                cache.settle(door);
                Some(block)
            }
            None => at_desk::operate(desk, door, cache, remaker, task, meant, out),
        },
        _ => at_desk::operate(desk, door, cache, remaker, task, meant, out),
    }
}

/// Performs an operation of the desk's thread, of which none is a chore. Its name is looked up and kept in book and requests.
#[inline(always)]
fn operate<D: Desk, O: Door, M: Remake, K: Tries<D>>(
    desk: &mut D,
    door: &mut O,
    book: &NameBook,
    cache: &mut ThreadCache,
    remaker: &M,
    keeper: &mut K,
    requests: &mut Requests,
    op: Op,
    out: &mut Records,
)
    requires stands { MayWork op (D.standing desk.old) (keeps (cached cache.old) (table book.now requests.old) out.old) (K.has desk.old keeper.old) }
    ensures works { DoesWork op (D.standing desk.old) (D.standing desk.new) (keeps (cached cache.old) (table book.now requests.old) out.old)
        (keeps (cached cache.new) (table book.now requests.new) out.new) (K.has desk.old keeper.old) (K.has desk.new keeper.new) }
    ensures home { D.home desk.new ≡ D.home desk.old }
    ensures keeps_home { K.home keeper.new ≡ K.home keeper.old }
{
    if let Work::Own(task) = op.work() {
        let meant = freed(book, requests, task);
        let came = serve(desk, door, cache, remaker, keeper, task, meant, out);
        keep(requests, task, came);
    }
}

/// The same, out of line.
#[inline(never)]
fn operate_rare<D: Desk, O: Door, M: Remake, K: Tries<D>>(
    desk: &mut D,
    door: &mut O,
    book: &NameBook,
    cache: &mut ThreadCache,
    remaker: &M,
    keeper: &mut K,
    requests: &mut Requests,
    op: Op,
    out: &mut Records,
)
    requires stands { MayWork op (D.standing desk.old) (keeps (cached cache.old) (table book.now requests.old) out.old) (K.has desk.old keeper.old) }
    ensures works { DoesWork op (D.standing desk.old) (D.standing desk.new) (keeps (cached cache.old) (table book.now requests.old) out.old)
        (keeps (cached cache.new) (table book.now requests.new) out.new) (K.has desk.old keeper.old) (K.has desk.new keeper.new) }
    ensures home { D.home desk.new ≡ D.home desk.old }
    ensures keeps_home { K.home keeper.new ≡ K.home keeper.old }
{
    operate(desk, door, book, cache, remaker, keeper, requests, op, out)
}

/// Performs an operation of the desk's thread, of which none is a chore. Requests and frees by name, which are the most by far, have code of their own, which no
/// longer asks what the operation is.
#[inline(always)]
fn operate_by_kind<D: Desk, O: Door, M: Remake, K: Tries<D>>(
    desk: &mut D,
    door: &mut O,
    book: &NameBook,
    cache: &mut ThreadCache,
    remaker: &M,
    keeper: &mut K,
    requests: &mut Requests,
    op: &Op,
    out: &mut Records,
)
    requires stands { MayWork op.now (D.standing desk.old) (keeps (cached cache.old) (table book.now requests.old) out.old) (K.has desk.old keeper.old) }
    ensures works { DoesWork op.now (D.standing desk.old) (D.standing desk.new) (keeps (cached cache.old) (table book.now requests.old) out.old)
        (keeps (cached cache.new) (table book.now requests.new) out.new) (K.has desk.old keeper.old) (K.has desk.new keeper.new) }
    ensures home { D.home desk.new ≡ D.home desk.old }
    ensures keeps_home { K.home keeper.new ≡ K.home keeper.old }
{
    match op.what {
        What::Alloc { .. } => operate(desk, door, book, cache, remaker, keeper, requests, *op, out),
        What::Free { .. } => operate(desk, door, book, cache, remaker, keeper, requests, *op, out),
        _ => operate_rare(desk, door, book, cache, remaker, keeper, requests, *op, out),
    }
}

/// Performs the operations of the desk's thread among those of a phase, in order, with the gate called round each. Its keeper, if it has one, tries the guarded requests
/// among them.
pub fn work<D: Desk, O: Door, G: Gate, M: Remake, K: Tries<D>>(
    desk: &mut D,
    door: &mut O,
    book: &NameBook,
    cache: &mut ThreadCache,
    remaker: &M,
    keeper: &mut K,
    requests: &mut Requests,
    ops: &[Op],
    gate: &G,
    out: &mut Records,
)
    requires few { length ops.now < 2 ^ 32 }
    requires stands { (f : TheProfile) × (k : ℕ) × (later : Later) × (more : LaterKept) × (p : Progress)
        × PairAt f (D.standing desk.old).seat.actor k (own_acts (D.standing desk.old).seat.actor ops.now) (D.standing desk.old) (keeps (cached cache.old) (table book.now requests.old) out.old) (K.has desk.old keeper.old) later more p }
    ensures works { (f : TheProfile) (k : ℕ) (later : Later) (more : LaterKept) (p : Progress)
        → PairAt f (D.standing desk.old).seat.actor k (own_acts (D.standing desk.old).seat.actor ops.now) (D.standing desk.old) (keeps (cached cache.old) (table book.now requests.old) out.old) (K.has desk.old keeper.old) later more p
        → PairWorks f (D.standing desk.old).seat.actor k (own_acts (D.standing desk.old).seat.actor ops.now) [] (D.standing desk.old) (D.standing desk.new) (keeps (cached cache.old) (table book.now requests.old) out.old) (keeps (cached cache.new) (table book.now requests.new) out.new) (K.has desk.old keeper.old) (K.has desk.new keeper.new) later more p }
    ensures home { D.home desk.new ≡ D.home desk.old }
    ensures keeps_home { K.home keeper.new ≡ K.home keeper.old }
{
    let actor = desk.actor();
    let mut number = 0;
    for op in ops {
        if op.actor == actor {
            number += 1;
            gate.before(actor, number);
            operate_by_kind(desk, door, book, cache, remaker, keeper, requests, op, out);
            gate.after(actor, number);
        }
    }
}
