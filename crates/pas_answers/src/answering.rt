//! One operation of a thread.
ghost use Rattle.std.specs.Prelude.{◌≡◌, ◌+◌, ◌-◌, ◌^◌, ◌≤◌, ◌<◌, ◌++◌, ℕ, List, Option, None, Some, length, map, drop};
ghost use Rattle.pas_trace.specs.declared.plan.What.TheVariants as TheWhat;
ghost use Rattle.pas_records.specs.Rooms.{records_in, room_of};
ghost use Rattle.pas_steps.specs.Desks.{CanCall};
ghost use Rattle.pas_cache.specs.{Caches.cached, Calls.Frees};
ghost use Rattle.pas_trace.specs.EveryPlan.{IsRoomNamed};
ghost use Rattle.pas_answers.specs.{Answers.{said_of_room, entry_with}, Fit.IsFitWhat, Indexes.{IsNamedFor, request_made}, Calls.{what_of, IsBlockOf}};
ghost use Rattle.pas_answers.specs.Calls.{MayStand, MayPerform, PerformsMeant, FreesOne, MayAnswer, AnswersMeant};
ghost use Rattle.pas_profile.specs.{Profiles.IsAdmitted, declared.name.Block.Block as TheBlock};

use crate::remaking::Remake;
use pas_cache::{Moved, ThreadCache};
use pas_large::Door;
use pas_profile::{Block, Event, FreeFault, Name, NoRoom};
use pas_records::{Record, Records, Said};
use pas_steps::Desk;
use pas_trace::Task;

/// Adds the events from this place on to the records, in their order.
#[inline(always)]
pub(crate) fn push_events(shown: &[Event], before: usize, out: &mut Records)
    requires within { before ≤ length shown.now }
    requires room { length (records_in out.old) + length (drop before shown.now) ≤ room_of out.old }
    ensures added { records_in out.new ≡ records_in out.old ++ map Record.Event (drop before shown.now) }
    ensures room { room_of out.new ≡ room_of out.old }
{
    let events = &shown[before..];
    for event in events {
        out.push(Record::Event(*event));
    }
}

/// What is said of a request that was refused.
fn refusal(name: u32, room: NoRoom) -> Said
    ensures { result ≡ said_of_room name room }
{
    match room {
        NoRoom::NoSpace => Said::NoSpace { name },
        NoRoom::Held(page) => Said::Held { page, name },
    }
}

/// Serves a request: what its name stands for from then on, and what is said where it was refused.
#[inline(always)]
fn allocate<D: Desk, O: Door>(
    desk: &mut D,
    door: &mut O,
    cache: &mut ThreadCache,
    name: u32,
    heap: u8,
    size: u32,
    align: u32,
) -> (Option<Block>, Option<Said>)
    requires admitted { IsAdmitted (D.standing desk.old).seat.profile size align heap }
    requires can { CanCall (D.standing desk.old) (MayPerform (D.standing desk.old).seat.profile (cached cache.old) (TheWhat.Alloc name heap size align) (D.spare_of desk.old)) }
    ensures performs { (meant : Option TheBlock) → (did : PerformsMeant (TheWhat.Alloc name heap size align) meant result.0 (cached cache.old) (cached cache.new) (D.standing desk.old) (D.standing desk.new) result.1)
        × IsNamedFor (D.standing desk.old).seat.profile (O.answers door.old door.new) (door.new ≡ door.old) (request_made (TheWhat.Alloc name heap size align) meant) did.found }
    ensures stands { MayStand (D.standing desk.old).seat.profile result.0 }
    ensures home { D.home desk.new ≡ D.home desk.old }
{
    match cache.serve(desk, door, heap, size, align) {
        Ok(block) => (Some(block), None),
        Err(room) => (None, Some(refusal(name, room))),
    }
}

/// Has the thread's cache log the block of this name, with the room that is named for it, if any.
#[inline(always)]
fn log<D: Desk>(
    desk: &mut D,
    cache: &mut ThreadCache,
    block: Name,
    room: Option<u32>,
) -> Result<(), FreeFault>
    requires turn { block.turn < 2 ^ 40 - 1 }
    requires room { IsRoomNamed (D.standing desk.old).seat.profile room }
    requires can { CanCall (D.standing desk.old) (MayPerform (D.standing desk.old).seat.profile (cached cache.old) (TheWhat.Raw block) (D.spare_of desk.old)) }
    ensures frees { Frees (entry_with block room) (cached cache.old) (cached cache.new) (D.standing desk.old) (D.standing desk.new) result }
    ensures home { D.home desk.new ≡ D.home desk.old }
{
    match room {
        Some(room) => cache.free_sized(desk, block, room),
        None => cache.free(desk, block),
    }
}

/// Frees the block of this name, which ends only where it has the room that is named, if any. What is said where no block can have the name.
#[inline(always)]
fn free<D: Desk>(
    desk: &mut D,
    cache: &mut ThreadCache,
    block: Name,
    room: Option<u32>,
) -> Option<Said>
    requires turn { block.turn < 2 ^ 40 - 1 }
    requires room { IsRoomNamed (D.standing desk.old).seat.profile room }
    requires can { CanCall (D.standing desk.old) (MayPerform (D.standing desk.old).seat.profile (cached cache.old) (TheWhat.Raw block) (D.spare_of desk.old)) }
    ensures frees { FreesOne (entry_with block room) (cached cache.old) (cached cache.new) (D.standing desk.old) (D.standing desk.new) result }
    ensures home { D.home desk.new ≡ D.home desk.old }
{
    match log(desk, cache, block, room) {
        Ok(()) => None,
        Err(FreeFault::Outside) => Some(Said::Outside { block }),
        Err(FreeFault::Unaligned) => Some(Said::Unaligned { block }),
    }
}

/// Gives a block another size, under a new name: what that name stands for from then on, and what is said where the block is kept or the request refused.
/// It stays out of line, since few operations come here, and all others would be longer with it.
#[inline(never)]
#[tactic(auto, using(crate::proofs::Requests::kept, crate::proofs::SingleActs::none_stands))]
fn resize<D: Desk, O: Door, M: Remake>(
    desk: &mut D,
    door: &mut O,
    cache: &mut ThreadCache,
    remaker: &M,
    name: u32,
    old: Block,
    size: u32,
    align: u32,
) -> (Option<Block>, Option<Said>)
    requires admitted { IsAdmitted (D.standing desk.old).seat.profile size align old.heap }
    requires stands { IsBlockOf (D.standing desk.old).seat.profile old }
    requires can { (n heap : ℕ) → CanCall (D.standing desk.old) (MayPerform (D.standing desk.old).seat.profile (cached cache.old) (TheWhat.Remake name n heap size align) (D.spare_of desk.old)) }
    ensures performs { (n heap : ℕ) → (did : PerformsMeant (TheWhat.Remake name n heap size align) (Some old) result.0 (cached cache.old) (cached cache.new) (D.standing desk.old) (D.standing desk.new) result.1)
        × IsNamedFor (D.standing desk.old).seat.profile (O.answers door.old door.new) (door.new ≡ door.old) (request_made (TheWhat.Remake name n heap size align) (Some old)) did.found }
    ensures stands { MayStand (D.standing desk.old).seat.profile result.0 }
    ensures home { D.home desk.new ≡ D.home desk.old }
{
    match remaker.remake(cache, desk, door, old, size, align) {
        Ok(Moved::Kept) => (
            Some(old),
            Some(Said::Kept {
                block: old.name,
                name,
            }),
        ),
        Ok(Moved::New(block)) => (Some(block), None),
        Err(room) => (None, Some(refusal(name, room))),
    }
}

/// Does the task, of which the freed or reallocated name stands for `meant`: what the asked name stands for from then on, and what is said besides its events.
#[inline(always)]
fn perform<D: Desk, O: Door, M: Remake>(
    desk: &mut D,
    door: &mut O,
    cache: &mut ThreadCache,
    remaker: &M,
    task: Task,
    meant: Option<Block>,
) -> (Option<Block>, Option<Said>)
    requires fit { (limit : ℕ) × (asked : List ℕ) × IsFitWhat (D.standing desk.old).seat.profile limit asked (what_of task) }
    requires stands { MayStand (D.standing desk.old).seat.profile meant }
    requires can { CanCall (D.standing desk.old) (MayPerform (D.standing desk.old).seat.profile (cached cache.old) (what_of task) (D.spare_of desk.old)) }
    ensures performs { (did : PerformsMeant (what_of task) meant result.0 (cached cache.old) (cached cache.new) (D.standing desk.old) (D.standing desk.new) result.1)
        × IsNamedFor (D.standing desk.old).seat.profile (O.answers door.old door.new) (door.new ≡ door.old) (request_made (what_of task) meant) did.found }
    ensures stands { MayStand (D.standing desk.old).seat.profile result.0 }
    ensures home { D.home desk.new ≡ D.home desk.old }
{
    match task {
        Task::Request {
            name,
            heap,
            size,
            align,
        } => allocate(desk, door, cache, name, heap, size, align),
        Task::Guarded {
            name,
            heap,
            size,
            align,
            ..
        } => allocate(desk, door, cache, name, heap, size, align),
        Task::Free { name, room } => match meant {
            Some(block) => (None, free(desk, cache, block.name, room)),
            None => (None, Some(Said::Skipped { name })),
        },
        Task::FreeRaw { block, room } => (None, free(desk, cache, block, room)),
        Task::Remake {
            name,
            size,
            align,
            ..
        } => match meant {
            Some(block) => resize(desk, door, cache, remaker, name, block, size, align),
            None => (None, Some(Said::Skipped { name })),
        },
        Task::Flush => {
            cache.flush(desk);
            (None, None)
        }
        Task::Stop => {
            cache.stop(desk);
            (None, None)
        }
    }
}

/// Does a thread's task, and adds its events and what is said to the records. `meant` is the block that the name stands for which a `Task::Free` frees or a
/// `Task::Remake` reallocates, if any, and the result the block that the asked name of a `Task::Request`, a `Task::Guarded` or a `Task::Remake` stands for from then on; None
/// for every other task. A guarded request is answered as any is: its keeper tries it before (`try_guarded`). A request for whole pages asks the door for a run first; nothing else asks it or changes it.
#[inline(always)]
pub fn answer_meant<D: Desk, O: Door, M: Remake>(
    desk: &mut D,
    door: &mut O,
    cache: &mut ThreadCache,
    remaker: &M,
    task: Task,
    meant: Option<Block>,
    out: &mut Records,
) -> Option<Block>
    requires fit { (limit : ℕ) × (asked : List ℕ) × IsFitWhat (D.standing desk.old).seat.profile limit asked (what_of task) }
    requires stands { MayStand (D.standing desk.old).seat.profile meant }
    requires can { CanCall (D.standing desk.old) (MayAnswer (D.standing desk.old).seat.profile (cached cache.old) (what_of task) (D.spare_of desk.old) out.old) }
    ensures answers { (did : AnswersMeant (what_of task) meant result (cached cache.old) (cached cache.new) out.old out.new (D.standing desk.old) (D.standing desk.new))
        × IsNamedFor (D.standing desk.old).seat.profile (O.answers door.old door.new) (door.new ≡ door.old) (request_made (what_of task) meant) did.performs.found }
    ensures stands { MayStand (D.standing desk.old).seat.profile result }
    ensures home { D.home desk.new ≡ D.home desk.old }
{
    let before = desk.shown().len();
    let (came, said) = perform(desk, door, cache, remaker, task, meant);
    push_events(desk.shown(), before, out);
    if let Some(said) = said {
        out.push(Record::Said(desk.actor(), said));
    }
    came
}

/// Does a thread's stop, and adds its events to the records. No door is asked.
pub fn answer_stop<D: Desk>(desk: &mut D, cache: &mut ThreadCache, out: &mut Records)
    requires can { CanCall (D.standing desk.old) (MayAnswer (D.standing desk.old).seat.profile (cached cache.old) TheWhat.Stop (D.spare_of desk.old) out.old) }
    ensures answers { AnswersMeant TheWhat.Stop None None (cached cache.old) (cached cache.new) out.old out.new (D.standing desk.old) (D.standing desk.new) }
    ensures home { D.home desk.new ≡ D.home desk.old }
{
    let before = desk.shown().len();
    cache.stop(desk);
    push_events(desk.shown(), before, out);
}
