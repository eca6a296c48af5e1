//! The acts of a replay, each with the lines that answer it.
ghost use Rattle.std.specs.Prelude.{ℕ, ◌≡◌, ◌≢◌, ◌%◌, ◌+◌, ◌*◌, ◌^◌, ◌<◌, ◌≤◌, true, List, [], ◌∷◌, None, Some, length, slice_index, IfOk, IfSome, MatchBool};
ghost use Rattle.std.specs.Prelude.{MatchOption};
ghost use Rattle.pas_profile.specs.{Directories.IsKind, Classes.IsAlignment, Profiles.IsValid, Blocks.address_of, declared.profile.Profile.Profile};
ghost use Rattle.pas_machine.specs.Machines.{profile_of};
ghost use Rattle.pas_trace.specs.{Asked.keeper_in, EveryPlan.{IsBelow, IsSoundWhat}, Acts.{Act, act_kept, MarksClose, MarksPhase, Operates, StopsIdle, Ticks}};
ghost use Rattle.pas_trace.specs.{Acts.Wakes, declared.item.Request.Request};
ghost use Rattle.pas_check.specs.{Calls.IsWanted, Checks.IsSizedAs, Leading.{IsWithin, StaysWithin}, Tables.{logs_held, names_held}, States.{Serves, Stand}};
ghost use Rattle.pas_check.specs.Tasks.{ActTaken, EntryLogged, Flushes, FreesEntry, FreesNamed, IsCarried, IsSuited, LogEmptied, PassTaken, Remakes, Resizes};
ghost use Rattle.pas_check.specs.{Tasks.{SaysNamed, Stands}, declared.cutting.Cursor.Cursor as TheCursor};

use crate::cutting::Cursor;
use crate::emptying::take_entries;
use crate::examining::take_outcomes;
use crate::following::take_record;
use crate::guarding::try_request;
use crate::logging::Logs;
use crate::naming::Names;
use crate::requesting::take_request;
use crate::serving::{Wanted, wanted_for};
use pas_machine::Machine;
use pas_profile::{Block, Entry, Name, NoMemory, Raised};
use pas_records::{Record, Said};
use pas_trace::{Op, Plan, What};
use std::alloc::Global;

/// What a check knows of the lines before: the machine, what the names of the trace stand for, the log of each thread, the epoch that each thread read when it
/// woke last, the greatest tick, and the guards that are up, in the order in which they went up. Threads stand at their numbers. Where memory is wanting for
/// a guard the check stops, and nothing is said of the line then.
#[derive(Drop)]
pub(crate) struct Judge {
    pub machine: Machine,
    pub names: Names,
    pub logs: Logs,
    pub idle_since: Vec<u64>,
    pub epoch: u64,
    pub guards: Vec<Raised>,
    pub lacks_memory: bool,
}

impl Judge {
    ghost use Rattle.pas_check.specs.Checks.{IsOpened};

    /// What a check knows before the first line. Takes memory in proportion to the region, to the names of the plan and to its threads.
    pub(crate) fn try_new(alloc: Global, plan: &Plan) -> Result<Judge, NoMemory>
        requires { IsValid plan.now.profile }
        ensures { IfOk result (λ judge. IsOpened plan.now judge) }
    {
        let count = plan.profile.threads + 1;
        let machine = Machine::try_new(alloc, plan.profile)?;
        let names = Names::try_new(alloc, plan.names_limit)?;
        let logs = Logs::try_new(alloc, count)?;
        let Ok(idle_since) = vec![in alloc; 0u64; count as usize] else {
            return Err(NoMemory);
        };
        Ok(Judge {
            machine,
            names,
            logs,
            idle_since,
            epoch: 0,
            guards: Vec::new(alloc),
            lacks_memory: false,
        })
    }
}

/// The thread wakes, and reads the epoch. It has no line.
pub(crate) fn wake(judge: &mut Judge, k: u8)
    requires { k < length judge.old.idle_since.items }
    ensures sized { IsSizedAs judge.old judge.new }
    ensures taken { (f : Profile) (text : List ℕ) (at : TheCursor) → IsWithin text at → ActTaken f text judge.old at judge.new at (Wakes k) true }
{
    judge.idle_since[k as usize] = judge.epoch;
}

/// Takes the mark of a phase from the second on.
pub(crate) fn mark_phase(judge: &Judge, text: &[u8], cursor: &mut Cursor, number: u32) -> bool
    requires within { IsWithin text.now cursor.old }
    ensures taken { (f : Profile) → ActTaken f text.now judge.now cursor.old judge.now cursor.new (MarksPhase number) result }
    ensures within { StaysWithin text.now cursor.new result }
{
    take_record(text, cursor, &Record::Phase(number))
}

/// Takes the mark of the close.
pub(crate) fn mark_close(judge: &Judge, text: &[u8], cursor: &mut Cursor) -> bool
    requires within { IsWithin text.now cursor.old }
    ensures taken { (f : Profile) → ActTaken f text.now judge.now cursor.old judge.now cursor.new MarksClose result }
    ensures within { StaysWithin text.now cursor.new result }
{
    take_record(text, cursor, &Record::Close)
}

/// Takes the line of a tick, which tells the greater of the epoch and its argument.
pub(crate) fn tick(judge: &mut Judge, text: &[u8], cursor: &mut Cursor, epoch: u64) -> bool
    requires within { IsWithin text.now cursor.old }
    ensures taken { (f : Profile) → ActTaken f text.now judge.old cursor.old judge.new cursor.new (Ticks epoch) result }
    ensures within { StaysWithin text.now cursor.new result }
    ensures sized { IsSizedAs judge.old judge.new }
{
    judge.epoch = judge.epoch.max(epoch);
    take_record(text, cursor, &Record::Said(0, Said::Tick(judge.epoch)))
}

/// Takes the lines of the entries of the thread's log, which is empty from then on.
fn empty_log(judge: &mut Judge, text: &[u8], cursor: &mut Cursor, k: u8) -> bool
    requires within { IsWithin text.now cursor.old }
    requires held { k < logs_held judge.old.logs }
    ensures taken { (f : Profile) → LogEmptied f text.now judge.old cursor.old judge.new cursor.new k [] result }
    ensures within { StaysWithin text.now cursor.new result }
    ensures sized { IsSizedAs judge.old judge.new }
{
    let log = judge.logs.log(k);
    if !take_entries(&mut judge.machine, text, cursor, k, log, judge.epoch) {
        return false;
    }
    judge.logs.clear(k);
    true
}

/// Takes the lines of the entries of the thread's log, which has just this entry from then on.
fn refill_log(judge: &mut Judge, text: &[u8], cursor: &mut Cursor, k: u8, entry: Entry) -> bool
    requires within { IsWithin text.now cursor.old }
    requires held { k < logs_held judge.old.logs }
    ensures taken { (f : Profile) → LogEmptied f text.now judge.old cursor.old judge.new cursor.new k (entry ∷ []) result }
    ensures within { StaysWithin text.now cursor.new result }
    ensures sized { IsSizedAs judge.old judge.new }
{
    let log = judge.logs.log(k);
    if !take_entries(&mut judge.machine, text, cursor, k, log, judge.epoch) {
        return false;
    }
    judge.logs.clear(k);
    judge.logs.add(k, entry);
    true
}

/// Logs the entry. Takes the lines of the entries of a full log, which is emptied before; where it isn't full there are none.
fn log_entry(judge: &mut Judge, text: &[u8], cursor: &mut Cursor, k: u8, entry: Entry) -> bool
    requires within { IsWithin text.now cursor.old }
    requires held { k < logs_held judge.old.logs }
    ensures taken { (f : Profile) → EntryLogged f text.now judge.old cursor.old judge.new cursor.new k entry result }
    ensures within { StaysWithin text.now cursor.new result }
    ensures sized { IsSizedAs judge.old judge.new }
{
    if judge.logs.is_full(k) {
        return refill_log(judge, text, cursor, k, entry);
    }
    judge.logs.add(k, entry);
    true
}

/// Whether the name's address is that of a grain.
fn is_at_grain(block: Name) -> bool
    ensures { MatchBool result (address_of block % 16 ≡ 0) (address_of block % 16 ≢ 0) }
{
    block.address.0 % 16 == 0
}

/// Takes the lines of an act that frees by the entry: what is said of a name outside of the region or at no grain, or the lines of a full log that is emptied
/// before the entry is logged; otherwise there are none.
pub(crate) fn free_entry(
    judge: &mut Judge,
    text: &[u8],
    cursor: &mut Cursor,
    k: u8,
    entry: Entry,
) -> bool
    requires within { IsWithin text.now cursor.old }
    requires held { k < logs_held judge.old.logs }
    ensures taken { (f : Profile) (act : Act) → FreesEntry f judge.old cursor.old act k entry
        → ActTaken f text.now judge.old cursor.old judge.new cursor.new act result }
    ensures within { StaysWithin text.now cursor.new result }
    ensures sized { IsSizedAs judge.old judge.new }
{
    let block = entry.name;
    if !judge.machine.has_page(block.address.0 / 4096) {
        return take_record(text, cursor, &Record::Said(k, Said::Outside { block }));
    }
    if !is_at_grain(block) {
        return take_record(text, cursor, &Record::Said(k, Said::Unaligned { block }));
    }
    log_entry(judge, text, cursor, k, entry)
}

/// Takes the lines of an act that frees what the name of the trace stands for, and names this room, or none where it is 0: those of a free of its block, or
/// what is said of a name whose request was refused. Where no request had the name there are none.
pub(crate) fn free_named(
    judge: &mut Judge,
    text: &[u8],
    cursor: &mut Cursor,
    k: u8,
    name: u32,
    room: u32,
) -> bool
    requires within { IsWithin text.now cursor.old }
    requires held { k < logs_held judge.old.logs }
    ensures taken { (f : Profile) (act : Act) → FreesNamed f act k name room → ActTaken f text.now judge.old cursor.old judge.new cursor.new act result }
    ensures within { StaysWithin text.now cursor.new result }
    ensures sized { IsSizedAs judge.old judge.new }
{
    match judge.names.get(name) {
        None => true,
        Some(None) => take_record(text, cursor, &Record::Said(k, Said::Skipped { name })),
        Some(Some(block)) => {
            let name = block.name;
            free_entry(judge, text, cursor, k, Entry { name, room })
        }
    }
}

/// Takes the lines of an act that empties the thread's log: of a flush, of a stop, or of its end at the close.
pub(crate) fn flush(judge: &mut Judge, text: &[u8], cursor: &mut Cursor, k: u8) -> bool
    requires within { IsWithin text.now cursor.old }
    requires held { k < logs_held judge.old.logs }
    ensures taken { (f : Profile) (act : Act) → Flushes f act k → ActTaken f text.now judge.old cursor.old judge.new cursor.new act result }
    ensures within { StaysWithin text.now cursor.new result }
    ensures sized { IsSizedAs judge.old judge.new }
{
    empty_log(judge, text, cursor, k)
}

/// Whether the thread read the epoch last at least so many epochs ago.
fn is_idle(judge: &Judge, k: u8, epochs: u64) -> bool
    requires { k < length judge.now.idle_since.items }
    ensures { MatchBool result (slice_index judge.now.idle_since.items k + epochs ≤ judge.now.epoch) (judge.now.epoch < slice_index judge.now.idle_since.items k + epochs) }
{
    let since = judge.idle_since[k as usize];
    judge.epoch >= epochs && judge.epoch - epochs >= since
}

/// Takes the lines of the stop of a thread that is idle for so many epochs; where it isn't, there are none.
pub(crate) fn stop_idle(
    judge: &mut Judge,
    text: &[u8],
    cursor: &mut Cursor,
    k: u8,
    epochs: u64,
) -> bool
    requires within { IsWithin text.now cursor.old }
    requires held { k < logs_held judge.old.logs }
    requires known { k < length judge.old.idle_since.items }
    ensures taken { (f : Profile) → ActTaken f text.now judge.old cursor.old judge.new cursor.new (StopsIdle k epochs) result }
    ensures within { StaysWithin text.now cursor.new result }
    ensures sized { IsSizedAs judge.old judge.new }
{
    if !is_idle(judge, k, epochs) {
        return true;
    }
    if !empty_log(judge, text, cursor, k) {
        return false;
    }
    take_record(text, cursor, &Record::Said(0, Said::Stopped(k)))
}

/// Takes the lines of a pass: its own, and those of its outcomes, as many as there are.
pub(crate) fn pass(judge: &mut Judge, text: &[u8], cursor: &mut Cursor) -> bool
    requires within { IsWithin text.now cursor.old }
    requires valid { IsValid (profile_of judge.old.machine) }
    ensures taken { (f : Profile) → PassTaken f text.now judge.old cursor.old judge.new cursor.new result }
    ensures within { StaysWithin text.now cursor.new result }
    ensures sized { IsSizedAs judge.old judge.new }
{
    if !take_record(text, cursor, &Record::Said(0, Said::Pass(judge.epoch))) {
        return false;
    }
    take_outcomes(&mut judge.machine, text, cursor, judge.epoch);
    true
}

/// Takes the lines of a request, after which its name stands for the block, or for nothing. Where a block is given in place of another, that one's name is
/// logged, and the lines of a full log come before.
pub(crate) fn serve(
    judge: &mut Judge,
    text: &[u8],
    cursor: &mut Cursor,
    k: u8,
    wanted: Wanted,
    replaced: Option<Name>,
) -> bool
    requires within { IsWithin text.now cursor.old }
    requires held { IfSome replaced (λ name. k < logs_held judge.old.logs) }
    requires valid { IsValid (profile_of judge.old.machine) }
    requires kind { IsKind wanted.directory.kind }
    requires align { 0 < wanted.align }
    requires heap { wanted.directory.heap < 32 }
    requires named { wanted.name < names_held judge.old.names }
    ensures taken { (f : Profile) (s : Stand) (r : Request) → Stands f judge.old s cursor.old → IsWanted f r wanted
        → s.due ≡ Serves k r replaced ∷ [] → IsCarried f text.now s cursor.old judge.new cursor.new result }
    ensures within { StaysWithin text.now cursor.new result }
    ensures sized { IsSizedAs judge.old judge.new }
{
    let Some(found) = take_request(&mut judge.machine, text, cursor, k, &wanted) else {
        return false;
    };
    judge.names.set(wanted.name, found);
    let Some(name) = replaced else {
        return true;
    };
    if found.is_none() {
        return true;
    }
    log_entry(judge, text, cursor, k, Entry { name, room: 0 })
}

/// Whether the block has room for so many bytes, where none count as one, and stands at a multiple of the alignment.
fn suits(block: &Block, size: u32, align: u32) -> bool
    requires { 0 < align }
    ensures { MatchBool result (IsSuited block.now size align) (IsSuited block.now size align → ⊥) }
{
    size.max(1) <= block.room && block.name.address.0 % align == 0
}

/// Takes the line of what is said, after which the name stands for the block, or for nothing.
fn say_named(
    judge: &mut Judge,
    text: &[u8],
    cursor: &mut Cursor,
    k: u8,
    name: u32,
    block: Option<Block>,
    said: Said,
) -> bool
    requires within { IsWithin text.now cursor.old }
    requires named { name < names_held judge.old.names }
    requires heap { IfSome block (λ b. b.heap < 32) }
    ensures taken { (f : Profile) (act : Act) → SaysNamed f judge.old cursor.old act k name block said
        → ActTaken f text.now judge.old cursor.old judge.new cursor.new act result }
    ensures within { StaysWithin text.now cursor.new result }
    ensures sized { IsSizedAs judge.old judge.new }
{
    judge.names.set(name, block);
    take_record(text, cursor, &Record::Said(k, said))
}

/// Takes the lines of an act that gives the block another size, under a new name: it suits and is kept, or another one is asked for in its place.
fn resize(
    judge: &mut Judge,
    text: &[u8],
    cursor: &mut Cursor,
    k: u8,
    name: u32,
    block: Block,
    size: u32,
    align: u32,
) -> bool
    requires within { IsWithin text.now cursor.old }
    requires held { k < logs_held judge.old.logs }
    requires valid { IsValid (profile_of judge.old.machine) }
    requires size { size ≤ (profile_of judge.old.machine).pages * 4096 }
    requires align { IsAlignment align }
    requires heap { block.heap < 32 }
    requires named { name < names_held judge.old.names }
    ensures taken { (f : Profile) (act : Act) → Resizes f judge.old cursor.old act k name block size align
        → ActTaken f text.now judge.old cursor.old judge.new cursor.new act result }
    ensures within { StaysWithin text.now cursor.new result }
    ensures sized { IsSizedAs judge.old judge.new }
{
    if suits(&block, size, align) {
        let said = Said::Kept {
            block: block.name,
            name,
        };
        return say_named(judge, text, cursor, k, name, Some(block), said);
    }
    let wanted = wanted_for(&judge.machine.profile(), name, block.heap, size, align);
    serve(judge, text, cursor, k, wanted, Some(block.name))
}

/// Takes the lines of an act that gives what the old name stands for another size, under a new name. Where the request of the old name was refused, that is
/// said, and the new name counts as refused.
pub(crate) fn remake(
    judge: &mut Judge,
    text: &[u8],
    cursor: &mut Cursor,
    k: u8,
    name: u32,
    old: u32,
    size: u32,
    align: u32,
) -> bool
    requires within { IsWithin text.now cursor.old }
    requires held { k < logs_held judge.old.logs }
    requires valid { IsValid (profile_of judge.old.machine) }
    requires size { size ≤ (profile_of judge.old.machine).pages * 4096 }
    requires align { IsAlignment align }
    requires named { name < names_held judge.old.names }
    ensures taken { (f : Profile) (act : Act) → Remakes f act k name old size align
        → ActTaken f text.now judge.old cursor.old judge.new cursor.new act result }
    ensures within { StaysWithin text.now cursor.new result }
    ensures sized { IsSizedAs judge.old judge.new }
{
    match judge.names.get(old) {
        None => true,
        Some(None) => say_named(judge, text, cursor, k, name, None, Said::Skipped { name }),
        Some(Some(block)) => resize(judge, text, cursor, k, name, block, size, align),
    }
}

/// Takes the lines of a thread's operation, as one without a guard. Those of the scavenger are other acts, and begin nothing as operations of a thread.
fn operate_plain(judge: &mut Judge, text: &[u8], cursor: &mut Cursor, op: Op) -> bool
    requires within { IsWithin text.now cursor.old }
    requires held { op.actor < logs_held judge.old.logs }
    requires valid { IsValid (profile_of judge.old.machine) }
    requires sound { (asked : List ℕ) × IsSoundWhat (profile_of judge.old.machine) asked op.what }
    requires named { IsBelow (names_held judge.old.names) op.what }
    ensures taken { (f : Profile) → ActTaken f text.now judge.old cursor.old judge.new cursor.new (Operates op) result }
    ensures within { StaysWithin text.now cursor.new result }
    ensures sized { IsSizedAs judge.old judge.new }
{
    let k = op.actor;
    match op.what {
        What::Alloc {
            name,
            heap,
            size,
            align,
        } => {
            let wanted = wanted_for(&judge.machine.profile(), name, heap, size, align);
            serve(judge, text, cursor, k, wanted, None)
        }
        What::Guarded {
            name,
            heap,
            size,
            align,
            ..
        } => {
            let wanted = wanted_for(&judge.machine.profile(), name, heap, size, align);
            serve(judge, text, cursor, k, wanted, None)
        }
        What::Free { name } => free_named(judge, text, cursor, k, name, 0),
        What::FreeSized { name, room } => free_named(judge, text, cursor, k, name, room),
        What::Raw { block: name } => free_entry(judge, text, cursor, k, Entry { name, room: 0 }),
        What::RawSized { room, block: name } => {
            free_entry(judge, text, cursor, k, Entry { name, room })
        }
        What::Remake {
            name,
            old,
            size,
            align,
            ..
        } => remake(judge, text, cursor, k, name, old, size, align),
        What::Flush | What::Stop => flush(judge, text, cursor, k),
        What::Tick(_) | What::Pass | What::Idle(_) => true,
    }
}

/// Takes the lines of a thread's operation. A guarded request is tried by its keeper.
pub(crate) fn operate(judge: &mut Judge, text: &[u8], cursor: &mut Cursor, op: Op) -> bool
    requires within { IsWithin text.now cursor.old }
    requires held { op.actor < logs_held judge.old.logs }
    requires valid { IsValid (profile_of judge.old.machine) }
    requires sound { (asked : List ℕ) × IsSoundWhat (profile_of judge.old.machine) asked op.what }
    requires named { IsBelow (names_held judge.old.names) op.what }
    requires kept { MatchOption (keeper_in op.what) (Unit {0}) (λ keeper. (op.actor < keeper) × (keeper < 2 ^ 8)) }
    ensures taken { (f : Profile) → ActTaken f text.now judge.old cursor.old judge.new cursor.new (act_kept (keeper_in op.what) op) result }
    ensures within { StaysWithin text.now cursor.new result }
    ensures sized { IsSizedAs judge.old judge.new }
{
    match op.what {
        What::Guarded {
            keeper,
            name,
            heap,
            size,
            align,
        } => {
            let wanted = wanted_for(&judge.machine.profile(), name, heap, size, align);
            try_request(judge, text, cursor, op.actor, keeper, wanted)
        }
        _ => operate_plain(judge, text, cursor, op),
    }
}
