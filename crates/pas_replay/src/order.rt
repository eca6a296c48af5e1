//! The phases of a plan in order, and the close.
ghost use Rattle.std.specs.Prelude.{◌≡◌, ◌+◌, ◌<◌, ◌≤◌, ◌^◌, map, length, ◌∷◌, List};
ghost use Rattle.pas_trace.specs.{Acts.{Wakes, ReadsEpoch, Ends, Lowers, numbers_from, idle_stops, acts_of_ops}, Codes.unlined, Scripts.without_lines};
ghost use Rattle.pas_trace.specs.declared.plan.Op.{Op as TheOp};
ghost use Rattle.pas_replay.specs.{Sessions.{Replay, Left, SoFarAt, AreEmpty, AreLowered, MayGoOn, GoesOn, hand_of, session, upon}, Taking.MayHandOn};
ghost use Rattle.pas_replay.specs.{Taking.{HandsOn, Begins, Replays}, Performing.{MayPerform, Performs}};
ghost use Rattle.pas_acts.specs.Awake.{awake_in, idle_in};
ghost use Rattle.pas_answers.specs.declared.names.Names.{Names as TheNames};
ghost use Rattle.pas_records.specs.Rooms.{Records as TheRecords};

use crate::seats::{
    Actors, end, lower, operate, pass, read_epoch, rise, serve_free, serve_request, sit,
    stop_if_idle, tick, wake,
};
use crate::taking::Takes;
use pas_acts::active_in;
use pas_acts::at_desk::SCAVENGER;
use pas_answers::Remake;
use pas_answers::names::Names;
use pas_bits::Mask4;
use pas_plain::{PlainDesk, PlainRegion};
use pas_records::{Record, Records};
use pas_trace::{Chore, Op, Operations, What, Work};

/// The number of the phase that begins without a mark.
const UNMARKED: u32 = 1;

/// Each thread that has an operation in the phase reads the epoch.
fn wake_all(desk: &mut PlainDesk, actors: &mut Actors, awake: Mask4)
    requires few { length actors.old.caches.items < 32 }
    requires so_far { (table : TheNames) × (out : TheRecords) × MayGoOn (λ n. map Wakes (awake_in awake n)) (session desk.old actors.old table out) }
    ensures threads { length actors.new.caches.items ≡ length actors.old.caches.items }
    ensures so_far { (table : TheNames) (out : TheRecords) → GoesOn (λ n. map Wakes (awake_in awake n)) (session desk.old actors.old table out) (session desk.new actors.new table out) }
{
    for index in 0..actors.caches.len() {
        let actor = index as u8 + 1;
        if awake.get(actor) {
            wake(desk, actors, actor);
        }
    }
}

/// Stops each thread that is idle in the phase, in order, where it was idle for so many epochs, and says so.
fn stop_idle(
    desk: &mut PlainDesk,
    actors: &mut Actors,
    awake: Mask4,
    epochs: u64,
    out: &mut Records,
)
    requires few { length actors.old.caches.items < 32 }
    requires so_far { (table : TheNames) × MayGoOn (λ n. ReadsEpoch ∷ idle_stops epochs (idle_in awake n)) (session desk.old actors.old table out.old) }
    ensures threads { length actors.new.caches.items ≡ length actors.old.caches.items }
    ensures so_far { (table : TheNames) → GoesOn (λ n. ReadsEpoch ∷ idle_stops epochs (idle_in awake n))
        (session desk.old actors.old table out.old) (session desk.new actors.new table out.new) }
{
    let threads = actors.caches.len();
    let epoch = read_epoch(desk, actors);
    for index in 0..threads {
        let actor = index as u8 + 1;
        if !awake.get(actor) {
            stop_if_idle(desk, actors, actor, epochs, epoch, out);
        }
    }
}

/// Performs an operation of whatever kind, in a phase in which these threads have one. Its line doesn't matter. It stays out of line: `perform` comes here rarely.
#[inline(never)]
fn perform_any<M: Remake>(
    desk: &mut PlainDesk,
    actors: &mut Actors,
    names: &mut Names,
    remaker: &M,
    awake: Mask4,
    op: Op,
    out: &mut Records,
)
    requires few { length actors.old.caches.items < 32 }
    requires so_far { MayPerform awake op (session desk.old actors.old names.old out.old) }
    ensures threads { length actors.new.caches.items ≡ length actors.old.caches.items }
    ensures so_far { Performs awake op (session desk.old actors.old names.old out.old) (session desk.new actors.new names.new out.new) }
{
    match op.work() {
        Work::Own(task) => operate(desk, actors, names, remaker, op.actor, task, out),
        Work::Chore(Chore::Tick(epoch)) => tick(desk, actors, epoch, out),
        Work::Chore(Chore::Pass) => pass(desk, actors, out),
        Work::Chore(Chore::Idle(epochs)) => stop_idle(desk, actors, awake, epochs, out),
    }
}

/// Performs an operation as `perform_any` does. Most are requests and frees by name, which are known by their kind at once, so that none of them goes through the
/// forms that an operation of any kind has.
#[inline(always)]
fn perform<M: Remake>(
    desk: &mut PlainDesk,
    actors: &mut Actors,
    names: &mut Names,
    remaker: &M,
    awake: Mask4,
    op: Op,
    out: &mut Records,
)
    requires few { length actors.old.caches.items < 32 }
    requires so_far { MayPerform awake op (session desk.old actors.old names.old out.old) }
    ensures threads { length actors.new.caches.items ≡ length actors.old.caches.items }
    ensures so_far { Performs awake op (session desk.old actors.old names.old out.old) (session desk.new actors.new names.new out.new) }
{
    match op.what {
        What::Alloc {
            name,
            heap,
            size,
            align,
        } => serve_request(
            desk, actors, names, remaker, op.actor, name, heap, size, align, out,
        ),
        What::Free { name } => serve_free(desk, actors, names, remaker, op.actor, name, out),
        _ => perform_any(desk, actors, names, remaker, awake, op, out),
    }
}

/// Performs the operations of a phase in order. After each the taker may take what was said.
fn perform_all<M: Remake, P: Operations, T: Takes>(
    desk: &mut PlainDesk,
    actors: &mut Actors,
    names: &mut Names,
    remaker: &M,
    awake: Mask4,
    phase: &P,
    out: &mut Records,
    taker: &mut T,
)
    requires few { length actors.old.caches.items < 32 }
    requires so_far { (ops : List TheOp) × (P.ops phase.now ≡ map unlined ops)
        × MayHandOn T.waits (λ n. acts_of_ops (idle_in awake n) ops) (session desk.old actors.old names.old out.old) }
    ensures threads { length actors.new.caches.items ≡ length actors.old.caches.items }
    ensures so_far { HandsOn T.waits (T.took taker.old taker.new) (λ ops. P.ops phase.now ≡ map unlined ops) (λ n ops. acts_of_ops (idle_in awake n) ops)
        (session desk.old actors.old names.old out.old) (session desk.new actors.new names.new out.new) }
{
    for place in 0..phase.count() {
        perform(desk, actors, names, remaker, awake, phase.op(place), out);
        taker.take(out);
    }
}

/// Stops each thread, in order.
fn stop_all(desk: &mut PlainDesk, actors: &mut Actors, out: &mut Records)
    requires few { length actors.old.caches.items < 32 }
    requires so_far { (table : TheNames) × MayGoOn (λ n. map Ends (numbers_from 1 n)) (session desk.old actors.old table out.old) }
    ensures threads { length actors.new.caches.items ≡ length actors.old.caches.items }
    ensures so_far { (table : TheNames) → GoesOn (λ n. map Ends (numbers_from 1 n)) (session desk.old actors.old table out.old) (session desk.new actors.new table out.new) }
    ensures empty { AreEmpty actors.new.caches.items }
{
    for index in 0..actors.caches.len() {
        end(desk, actors, index as u8 + 1, out);
    }
}

/// Each keeper, in order, lowers all its guards: those of the threads, which are the actors behind them. There are none in a plan that isn't guarded.
fn lower_all(desk: &mut PlainDesk, actors: &mut Actors, out: &mut Records)
    requires few { length actors.old.caches.items < 32 }
    requires books { length actors.old.books.items ≤ length actors.old.caches.items }
    requires so_far { (table : TheNames) × (r : Replay) × (more : Left)
        × SoFarAt r (upon r (map Lowers (numbers_from (r.threads + 1) r.keepers)) more) (session desk.old actors.old table out.old) }
    ensures caches { actors.new.caches ≡ actors.old.caches }
    ensures so_far { (table : TheNames) (r : Replay) (more : Left)
        → SoFarAt r (upon r (map Lowers (numbers_from (r.threads + 1) r.keepers)) more) (session desk.old actors.old table out.old) → SoFarAt r more (session desk.new actors.new table out.new) }
    ensures lowered { AreLowered actors.new.books.items }
{
    let threads = actors.caches.len() as u8;
    for index in 0..actors.books.len() {
        let actor = index as u8 + 1;
        lower(desk, actors, actor, threads + actor, out);
    }
}

/// Performs the phases in order, with a mark before each from the second on, and closes: a mark, the stop of each thread, and the last sweep of each keeper.
/// The region stays at one desk, at which the actors take turns. The taker may take what was said after each mark and each operation.
pub(crate) fn replay<M: Remake, P: Operations, T: Takes>(
    region: PlainRegion,
    actors: &mut Actors,
    names: &mut Names,
    remaker: &M,
    phases: &[P],
    out: &mut Records,
    taker: &mut T,
) -> PlainRegion
    requires phases { length phases.now < 2 ^ 32 }
    requires few { length actors.old.caches.items < 32 }
    requires books { length actors.old.books.items ≤ length actors.old.caches.items }
    requires so_far { (lists : List (List TheOp)) × (map P.ops phases.now ≡ without_lines lists)
        × (r : Replay) × Begins T.waits lists r (hand_of region actors.old names.old out.old) }
    ensures so_far { Replays T.waits (T.took taker.old taker.new) (λ lists. map P.ops phases.now ≡ without_lines lists)
        (hand_of region actors.old names.old out.old) (hand_of result actors.new names.new out.new) }
    ensures empty { AreEmpty actors.new.caches.items }
    ensures lowered { AreLowered actors.new.books.items }
{
    let mut desk = sit(region, actors, SCAVENGER);
    let mut number = 0;
    for phase in phases {
        number += 1;
        if number > UNMARKED {
            out.push(Record::Phase(number));
        }
        let awake = active_in(phase);
        taker.take(out);
        wake_all(&mut desk, actors, awake);
        perform_all(&mut desk, actors, names, remaker, awake, phase, out, taker);
    }
    out.push(Record::Close);
    stop_all(&mut desk, actors, out);
    lower_all(&mut desk, actors, out);
    rise(desk, actors)
}
