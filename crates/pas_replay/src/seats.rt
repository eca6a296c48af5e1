//! The actors' places at the region. One sits at the desk at a time.
ghost use Rattle.std.specs.Prelude.{◌≡◌, ◌≢◌, ◌<◌, ◌+◌, ◌-◌, ◌≤◌, ◌++◌, ℕ, List, [], ◌∷◌, length, option_and_then, slice_set};
ghost use Rattle.pas_profile.specs.declared.profile.Profile.{Profile as TheProfile};
ghost use Rattle.pas_plain.specs.{Plain.actor_of, Seats.{pass_of, standing_of}, declared.desk.PlainDesk.PlainDesk as TheDesk};
ghost use Rattle.pas_cache.specs.{Caches.cached, declared.cache.ThreadCache.ThreadCache as TheCache};
ghost use Rattle.pas_guard.specs.{Books.guards_in, declared.book.GuardBook.GuardBook as TheBook};
ghost use Rattle.pas_trace.specs.{Asked.{request_of, freed_of}, Acts.{Operates, Settles, Ticks, MakesPass, ReadsEpoch, StopsIdle, Wakes, Ends, Lowers}};
ghost use Rattle.pas_trace.specs.declared.plan.Op.{Op as TheOp};
ghost use Rattle.pas_trace.specs.declared.plan.What.TheVariants as TheWhat;
ghost use Rattle.pas_answers.specs.{Answers.{Named, Progress, settled}, Indexes.with_noted, Fit.IsFitWhat, Names.{block_named, names_held, MayPack}};
ghost use Rattle.pas_answers.specs.{Calls.{what_of, Tells, MayStand, AllMayStand, named_with, named_by}, declared.names.Names.Names as TheNames};
ghost use Rattle.pas_acts.specs.{Works.Later, AtDesks.{here, MayOperate}};
ghost use Rattle.pas_replay.specs.{Operating.ActsByIndexes, Sessions.{Replay, pass_in, hand_of, hand_at, session, IsTaken, MaySit, MayTakeSeat, ChangesSeats}};
ghost use Rattle.pas_replay.specs.Sessions.{TakesSeat, SoFarAt, MayGoOn, GoesOn, HasRead, MayGoOnAt, GoesOnAt, own_acts_of, Left, upon};
ghost use Rattle.pas_records.specs.Rooms.{Records as TheRecords};

use pas_acts::at_desk::SCAVENGER;
use pas_acts::{at_desk, keepers, turns};
use pas_answers::Remake;
use pas_answers::names::Names;
use pas_cache::{Moved, ThreadCache};
use pas_guard::GuardBook;
use pas_large::{Door, LargeIndex, PlainDoor};
use pas_plain::{PlainDesk, PlainPass, PlainRegion};
use pas_profile::{Block, NoRoom};
use pas_records::{Record, Records, Said};
use pas_steps::Desk;
use pas_trace::Task;
use pas_utility::Outcomes;

/// What the actors have beside the region.
#[derive(Drop)]
pub(crate) struct Actors {
    /// By actor, from the scavenger on. The one at the desk has its pass there.
    pub(crate) passes: Vec<Option<PlainPass>>,
    /// By thread, from thread 1 on.
    pub(crate) caches: Vec<ThreadCache>,
    /// The scavenger's list for what a pass comes to.
    pub(crate) outcomes: Outcomes,
    /// By thread, from thread 1 on: what its keeper has up. None in a plan that isn't guarded.
    pub(crate) books: Vec<GuardBook>,
    /// By heap: the pages where large blocks ended, which a large request is given first.
    pub(crate) indexes: Vec<LargeIndex>,
}

/// The actor of this number sits down at the region's desk.
pub(crate) fn sit(region: PlainRegion, actors: &mut Actors, actor: u8) -> PlainDesk
    requires place { actor < length actors.old.passes.items }
    requires may { MaySit region (pass_in actors.old.passes.items actor) actor }
    ensures taken { IsTaken result actors.new.passes.items }
    ensures caches { actors.new.caches ≡ actors.old.caches }
    ensures books { actors.new.books ≡ actors.old.books }
    ensures hand { (table : TheNames) (out : TheRecords) → hand_of region actors.old table out ≡ hand_at result actors.new table out }
{
    let Some(pass) = actors.passes[actor as usize].take() else {
        unreachable!();
    };
    region.desk(pass)
}

/// The one at the desk rises.
pub(crate) fn rise(desk: PlainDesk, actors: &mut Actors) -> PlainRegion
    requires { IsTaken desk actors.old.passes.items }
    ensures caches { actors.new.caches ≡ actors.old.caches }
    ensures books { actors.new.books ≡ actors.old.books }
    ensures hand { (table : TheNames) (out : TheRecords) → hand_at desk actors.old table out ≡ hand_of result actors.new table out }
{
    let place = desk.actor() as usize;
    let (region, pass) = desk.into_parts();
    actors.passes[place] = Some(pass);
    region
}

/// The actor of this number sits down at the desk, where it doesn't sit there. The one that sits there rises then. What the actor showed in its last act
/// is forgotten, so that no room ever holds more than the events of one act.
#[inline(always)]
fn take_seat(desk: &mut PlainDesk, passes: &mut Vec<Option<PlainPass>>, actor: u8)
    requires { MayTakeSeat desk.old passes.old.items actor }
    ensures { TakesSeat desk.old desk.new passes.old.items passes.new.items actor }
{
    if desk.actor() != actor {
        change_seats(desk, passes, actor);
    }
    desk.forget();
}

/// The actor of this number sits down at the desk in the place of the one that sits there.
#[inline(never)]
fn change_seats(desk: &mut PlainDesk, passes: &mut Vec<Option<PlainPass>>, actor: u8)
    requires other { actor_of (pass_of desk.old) ≢ actor }
    requires may { MayTakeSeat desk.old passes.old.items actor }
    ensures { ChangesSeats desk.old desk.new passes.old.items passes.new.items actor }
{
    let Some(pass) = passes[actor as usize].take() else {
        unreachable!();
    };
    let place = desk.actor() as usize;
    let risen = desk.replace(pass);
    passes[place] = Some(risen);
}

/// What the name that the task frees or reallocates stands for.
#[inline(always)]
fn freed(names: &Names, task: Task) -> Option<Block>
    ensures { result ≡ option_and_then (block_named names.now) (freed_of task) }
{
    match task {
        Task::Free { name, .. } => names.get(name),
        Task::Remake { old, .. } => names.get(old),
        _ => None,
    }
}

/// Keeps what the name that the task asked for came to.
#[inline(always)]
fn keep(names: &mut Names, task: Task, came: Option<Block>)
    requires fit { (f : TheProfile) × (asked : List ℕ) × IsFitWhat f (names_held names.old) asked (what_of task) }
    requires packs { MayPack came }
    ensures tells { (known : List Named) → Tells names.old known → Tells names.new (named_with (request_of task) came ++ known) }
    ensures stand { (f : TheProfile) → AllMayStand f names.old → MayStand f came → AllMayStand f names.new }
    ensures held { names_held names.new ≡ names_held names.old }
{
    match task {
        Task::Request { name, .. } => names.set(name, came),
        Task::Guarded { name, .. } => names.set(name, came),
        Task::Remake { name, .. } => names.set(name, came),
        _ => {}
    }
}

/// The thread of this number reads the epoch, as a phase begins in which it has an operation.
pub(crate) fn wake(desk: &mut PlainDesk, actors: &mut Actors, actor: u8)
    requires some { 1 ≤ actor }
    requires thread { actor ≤ length actors.old.caches.items }
    requires so_far { (table : TheNames) × (out : TheRecords) × MayGoOn (λ n. Wakes actor ∷ []) (session desk.old actors.old table out) }
    ensures threads { length actors.new.caches.items ≡ length actors.old.caches.items }
    ensures so_far { (table : TheNames) (out : TheRecords) → GoesOn (λ n. Wakes actor ∷ []) (session desk.old actors.old table out) (session desk.new actors.new table out) }
{
    take_seat(desk, &mut actors.passes, actor);
    let cache = &mut actors.caches[actor as usize - 1];
    turns::begin(desk, cache);
}

/// The desk's thread does the task, with the indexes as its door. This answers each operation of the thread that asks for the task.
#[inline(always)]
fn operate_by<M: Remake>(
    desk: &mut PlainDesk,
    indexes: &mut [LargeIndex],
    cache: &mut ThreadCache,
    remaker: &M,
    task: Task,
    meant: Option<Block>,
    out: &mut Records,
) -> Option<Block>
    requires stands { (f : TheProfile) × (op : TheOp) × (later : Later) × (p : Progress) × (op.what ≡ what_of task) × MayOperate f op.actor op.what meant (here (standing_of desk.old) (cached cache.old) out.old) later p }
    ensures operates { (f : TheProfile) (op : TheOp) (later : Later) (p : Progress) → op.what ≡ what_of task → MayOperate f op.actor op.what meant (here (standing_of desk.old) (cached cache.old) out.old) later p
        → ActsByIndexes f op.actor op indexes.old indexes.new (named_by op.what result) (here (standing_of desk.old) (cached cache.old) out.old) (here (standing_of desk.new) (cached cache.new) out.new) later p }
    ensures stands { MayStand (standing_of desk.old).seat.profile result }
{
    let mut door = PlainDoor::new(indexes);
    at_desk::operate(desk, &mut door, cache, remaker, task, meant, out)
}

/// The indexes take the runs of large blocks that the cache noted.
fn settle_by(indexes: &mut [LargeIndex], cache: &mut ThreadCache)
    ensures cache { cached cache.new ≡ settled (cached cache.old) }
    ensures indexes { indexes.new ≡ with_noted indexes.old (cached cache.old).noted }
{
    let mut plain = PlainDoor::new(indexes);
    cache.settle(&mut plain);
}

/// The indexes take the runs of large blocks that the cache of the thread of this number noted, whoever sits at the desk.
fn settle(actors: &mut Actors, actor: u8)
    requires some { 1 ≤ actor }
    requires thread { actor ≤ length actors.old.caches.items }
    ensures threads { length actors.new.caches.items ≡ length actors.old.caches.items }
    ensures so_far { (desk : TheDesk) (table : TheNames) (out : TheRecords) → GoesOn (λ n. Settles actor ∷ []) (session desk actors.old table out) (session desk actors.new table out) }
{
    let cache = &mut actors.caches[actor as usize - 1];
    settle_by(&mut actors.indexes, cache);
}

/// The thread of this number does the task, and what its name came to is kept. A request for whole pages asks the indexes, and they take the runs of large blocks
/// that its cache noted. This answers each operation of the thread that asks for the task, and that no keeper answers. All its code stands in line, in three
/// places: those two kinds of tasks that are the most by far have one each (`Own`), which no longer asks what the task is.
#[inline]
fn serve<M: Remake>(
    desk: &mut PlainDesk,
    actors: &mut Actors,
    names: &mut Names,
    remaker: &M,
    actor: u8,
    task: Task,
    out: &mut Records,
)
    requires some { 1 ≤ actor }
    requires thread { actor ≤ length actors.old.caches.items }
    requires so_far { (op : TheOp) × (op.actor ≡ actor) × (op.what ≡ what_of task) × MayGoOn (λ n. Operates op ∷ (Settles op.actor ∷ [])) (session desk.old actors.old names.old out.old) }
    ensures threads { length actors.new.caches.items ≡ length actors.old.caches.items }
    ensures so_far { (op : TheOp) → op.actor ≡ actor → op.what ≡ what_of task
        → GoesOn (λ n. Operates op ∷ (Settles op.actor ∷ [])) (session desk.old actors.old names.old out.old) (session desk.new actors.new names.new out.new) }
{
    take_seat(desk, &mut actors.passes, actor);
    let cache = &mut actors.caches[actor as usize - 1];
    let meant = freed(names, task);
    let came = operate_by(desk, &mut actors.indexes, cache, remaker, task, meant, out);
    keep(names, task, came);
}

/// What gives blocks another size, as it is handed to the code that answers operations of one kind alone. That code, from `serve` down, is compiled for each type
/// that it is handed, and so each kind has its own, which is called at one place and put in line there: the kit leaves `#[inline(always)]` out of a function that
/// grows very large, as this does, and what is called at three places would stay out of line then, and ask what the task is.
#[derive(Clone, Copy, Drop)]
struct Own<'a, M, const KIND: usize> {
    remaker: &'a M,
}

const REQUESTS: usize = 0;

const FREES: usize = 1;

impl<M: Remake, const KIND: usize> Remake for Own<'_, M, KIND> {
    fn remake<D: Desk, O: Door>(
        &self,
        cache: &mut ThreadCache,
        desk: &mut D,
        door: &mut O,
        old: Block,
        size: u32,
        align: u32,
    ) -> Result<Moved, NoRoom> {
        self.remaker.remake(cache, desk, door, old, size, align)
    }
}

/// The thread of this number makes a request, as `serve` does.
#[inline(never)]
pub(crate) fn serve_request<M: Remake>(
    desk: &mut PlainDesk,
    actors: &mut Actors,
    names: &mut Names,
    remaker: &M,
    actor: u8,
    name: u32,
    heap: u8,
    size: u32,
    align: u32,
    out: &mut Records,
)
    requires some { 1 ≤ actor }
    requires thread { actor ≤ length actors.old.caches.items }
    requires so_far { (op : TheOp) × (op.actor ≡ actor) × (op.what ≡ TheWhat.Alloc name heap size align)
        × MayGoOn (λ n. Operates op ∷ (Settles op.actor ∷ [])) (session desk.old actors.old names.old out.old) }
    ensures threads { length actors.new.caches.items ≡ length actors.old.caches.items }
    ensures so_far { (op : TheOp) → op.actor ≡ actor → op.what ≡ TheWhat.Alloc name heap size align
        → GoesOn (λ n. Operates op ∷ (Settles op.actor ∷ []))
        (session desk.old actors.old names.old out.old) (session desk.new actors.new names.new out.new) }
{
    let task = Task::Request {
        name,
        heap,
        size,
        align,
    };
    let own: Own<'_, M, REQUESTS> = Own { remaker };
    serve(desk, actors, names, &own, actor, task, out);
}

/// The thread of this number frees the block that the name stands for, as `serve` does.
#[inline(never)]
pub(crate) fn serve_free<M: Remake>(
    desk: &mut PlainDesk,
    actors: &mut Actors,
    names: &mut Names,
    remaker: &M,
    actor: u8,
    name: u32,
    out: &mut Records,
)
    requires some { 1 ≤ actor }
    requires thread { actor ≤ length actors.old.caches.items }
    requires so_far { (op : TheOp) × (op.actor ≡ actor) × (op.what ≡ TheWhat.Free name)
        × MayGoOn (λ n. Operates op ∷ (Settles op.actor ∷ [])) (session desk.old actors.old names.old out.old) }
    ensures threads { length actors.new.caches.items ≡ length actors.old.caches.items }
    ensures so_far { (op : TheOp) → op.actor ≡ actor → op.what ≡ TheWhat.Free name
        → GoesOn (λ n. Operates op ∷ (Settles op.actor ∷ []))
        (session desk.old actors.old names.old out.old) (session desk.new actors.new names.new out.new) }
{
    let task = Task::Free { name, room: None };
    let own: Own<'_, M, FREES> = Own { remaker };
    serve(desk, actors, names, &own, actor, task, out);
}

/// The thread of this number does a task of whatever kind, as `serve` does.
#[inline(never)]
fn serve_any<M: Remake>(
    desk: &mut PlainDesk,
    actors: &mut Actors,
    names: &mut Names,
    remaker: &M,
    actor: u8,
    task: Task,
    out: &mut Records,
)
    requires some { 1 ≤ actor }
    requires thread { actor ≤ length actors.old.caches.items }
    requires so_far { (op : TheOp) × (op.actor ≡ actor) × (op.what ≡ what_of task)
        × MayGoOn (λ n. Operates op ∷ (Settles op.actor ∷ [])) (session desk.old actors.old names.old out.old) }
    ensures threads { length actors.new.caches.items ≡ length actors.old.caches.items }
    ensures so_far { (op : TheOp) → op.actor ≡ actor → op.what ≡ what_of task
        → GoesOn (λ n. Operates op ∷ (Settles op.actor ∷ []))
        (session desk.old actors.old names.old out.old) (session desk.new actors.new names.new out.new) }
{
    serve(desk, actors, names, remaker, actor, task, out);
}

/// The thread of this number does the task, and its events and what is said come to the records. Its keeper tries a guarded request first: it lowers the guards of
/// blocks that ended, and raises one. Where that gave no block the thread makes it as any other. In both ways the indexes take the runs of large blocks that its
/// cache noted. This answers each operation of the thread that asks for the task.
#[inline(always)]
pub(crate) fn operate<M: Remake>(
    desk: &mut PlainDesk,
    actors: &mut Actors,
    names: &mut Names,
    remaker: &M,
    actor: u8,
    task: Task,
    out: &mut Records,
)
    requires some { 1 ≤ actor }
    requires thread { actor ≤ length actors.old.caches.items }
    requires so_far { (op : TheOp) × (op.actor ≡ actor) × (op.what ≡ what_of task) × MayGoOn (λ n. own_acts_of task op) (session desk.old actors.old names.old out.old) }
    ensures threads { length actors.new.caches.items ≡ length actors.old.caches.items }
    ensures so_far { (op : TheOp) → op.actor ≡ actor → op.what ≡ what_of task
        → GoesOn (λ n. own_acts_of task op) (session desk.old actors.old names.old out.old) (session desk.new actors.new names.new out.new) }
{
    match task {
        Task::Guarded {
            keeper,
            name,
            heap,
            size,
            align,
        } => {
            take_seat(desk, &mut actors.passes, keeper);
            let book = &mut actors.books[actor as usize - 1];
            match keepers::try_guarded(desk, book, name, heap, size, align, out) {
                Some(block) => {
                    keep(names, task, Some(block));
                    settle(actors, actor);
                }
                None => serve_any(desk, actors, names, remaker, actor, task, out),
            }
        }
        _ => serve_any(desk, actors, names, remaker, actor, task, out),
    }
}

/// The keeper of the thread of this number lowers all its guards, as the replay closes. Its book is empty then.
pub(crate) fn lower(
    desk: &mut PlainDesk,
    actors: &mut Actors,
    actor: u8,
    keeper: u8,
    out: &mut Records,
)
    requires some { 1 ≤ actor }
    requires thread { actor ≤ length actors.old.books.items }
    requires keeper { keeper ≡ length actors.old.caches.items + actor }
    requires so_far { (table : TheNames) × MayGoOn (λ n. Lowers keeper ∷ []) (session desk.old actors.old table out.old) }
    ensures caches { actors.new.caches ≡ actors.old.caches }
    ensures book { (book : TheBook) × (actors.new.books.items ≡ slice_set actors.old.books.items (actor - 1) book) × (guards_in book ≡ []) }
    ensures so_far { (table : TheNames) → GoesOn (λ n. Lowers keeper ∷ []) (session desk.old actors.old table out.old) (session desk.new actors.new table out.new) }
{
    take_seat(desk, &mut actors.passes, keeper);
    let book = &mut actors.books[actor as usize - 1];
    keepers::lower_all(desk, book, out);
}

/// The thread of this number is stopped, as the replay closes. Its cache is empty then.
pub(crate) fn end(desk: &mut PlainDesk, actors: &mut Actors, actor: u8, out: &mut Records)
    requires some { 1 ≤ actor }
    requires thread { actor ≤ length actors.old.caches.items }
    requires so_far { (table : TheNames) × MayGoOn (λ n. Ends actor ∷ []) (session desk.old actors.old table out.old) }
    ensures cache { (cache : TheCache) × (actors.new.caches.items ≡ slice_set actors.old.caches.items (actor - 1) cache) × ((cached cache).locals ≡ []) }
    ensures so_far { (table : TheNames) → GoesOn (λ n. Ends actor ∷ []) (session desk.old actors.old table out.old) (session desk.new actors.new table out.new) }
{
    take_seat(desk, &mut actors.passes, actor);
    let cache = &mut actors.caches[actor as usize - 1];
    turns::end(desk, cache, out);
}

/// Stops the thread of this number, where it was idle for so many epochs, now that it is this one, and says so.
pub(crate) fn stop_if_idle(
    desk: &mut PlainDesk,
    actors: &mut Actors,
    actor: u8,
    epochs: u64,
    epoch: u64,
    out: &mut Records,
)
    requires some { 1 ≤ actor }
    requires thread { actor ≤ length actors.old.caches.items }
    requires so_far { (table : TheNames) × MayGoOnAt epoch (StopsIdle actor epochs ∷ []) (session desk.old actors.old table out.old) }
    ensures threads { length actors.new.caches.items ≡ length actors.old.caches.items }
    ensures so_far { (table : TheNames) → GoesOnAt epoch (StopsIdle actor epochs ∷ []) (session desk.old actors.old table out.old) (session desk.new actors.new table out.new) }
{
    take_seat(desk, &mut actors.passes, actor);
    let cache = &mut actors.caches[actor as usize - 1];
    if at_desk::stop_if_idle(desk, cache, epochs, epoch, out) {
        out.push(Record::Said(SCAVENGER, Said::Stopped(actor)));
    }
}

/// The scavenger raises the epoch to at least this.
pub(crate) fn tick(desk: &mut PlainDesk, actors: &mut Actors, epoch: u64, out: &mut Records)
    requires so_far { (table : TheNames) × MayGoOn (λ n. Ticks epoch ∷ []) (session desk.old actors.old table out.old) }
    ensures threads { length actors.new.caches.items ≡ length actors.old.caches.items }
    ensures so_far { (table : TheNames) → GoesOn (λ n. Ticks epoch ∷ []) (session desk.old actors.old table out.old) (session desk.new actors.new table out.new) }
{
    take_seat(desk, &mut actors.passes, SCAVENGER);
    at_desk::tick(desk, epoch, out);
}

/// The scavenger makes a pass.
pub(crate) fn pass(desk: &mut PlainDesk, actors: &mut Actors, out: &mut Records)
    requires so_far { (table : TheNames) × MayGoOn (λ n. MakesPass ∷ []) (session desk.old actors.old table out.old) }
    ensures threads { length actors.new.caches.items ≡ length actors.old.caches.items }
    ensures so_far { (table : TheNames) → GoesOn (λ n. MakesPass ∷ []) (session desk.old actors.old table out.old) (session desk.new actors.new table out.new) }
{
    take_seat(desk, &mut actors.passes, SCAVENGER);
    at_desk::pass(desk, &mut actors.outcomes, out);
}

/// The scavenger reads the epoch.
pub(crate) fn read_epoch(desk: &mut PlainDesk, actors: &mut Actors) -> u64
    requires so_far { (table : TheNames) × (out : TheRecords) × MayGoOn (λ n. ReadsEpoch ∷ []) (session desk.old actors.old table out) }
    ensures threads { length actors.new.caches.items ≡ length actors.old.caches.items }
    ensures so_far { (table : TheNames) (out : TheRecords) (r : Replay) (more : Left) → SoFarAt r (upon r (ReadsEpoch ∷ []) more) (session desk.old actors.old table out) → HasRead result r more (session desk.new actors.new table out) }
{
    take_seat(desk, &mut actors.passes, SCAVENGER);
    at_desk::read_epoch(desk)
}
