//! Guarded requests: the lines of a keeper, and those of guards that are lowered.
ghost use Rattle.std.specs.Prelude.{ℕ, ◌≡◌, ◌≢◌, ◌<◌, ◌≤◌, ◌∷◌, [], List, None, Some, true, false, length, nat_lt, MatchOption, ◌||◌};
ghost use Rattle.pas_profile.specs.{Blocks.address_of, Directories.IsKind, Profiles.IsValid, declared.{event.Event.Event as TheEvent, profile.Profile.Profile}};
ghost use Rattle.pas_machine.specs.{Machines.{profile_of, StandsFor}, State.ends_in};
ghost use Rattle.pas_trace.specs.{Acts.{Act, Lowers}, declared.item.Request.Request};
ghost use Rattle.pas_check.specs.{Begins.{goes_down, guard_of, has_sides, lowered_record, raising}, Calls.{IsGiftOf, IsWanted, LinesSwept, TrialStays}};
ghost use Rattle.pas_check.specs.{Calls.TrialTaken, Checks.IsSizedAs, Leading.{IsWithin, StaysWithin}, Tables.names_held, States.{Stand, Tries, with_name}};
ghost use Rattle.pas_check.specs.{Takes.is_back, Tasks.{ActTaken, AsksKeeper, GuardsSwept, IsCarried, Stands}};

use crate::acting::{Judge, serve};
use crate::cutting::{Cursor, next_line};
use crate::following::take_record;
use crate::reading::read;
use crate::serving::{Wanted, block_in, take_event};
use crate::taking::is_place;
use pas_machine::Machine;
use pas_profile::{Block, Event, Guard, Name, Raised};
use pas_records::{Record, Said};

/// What the lines of a keeper come to: it gave the block; or it backed no page and gave none, so that its thread may be served from this place on; or a line
/// isn't allowed, or is wanting.
#[derive(Clone, Copy, Drop)]
pub(crate) enum Trial {
    Gives(Block),
    Passes(Cursor),
    Stops,
}

/// Whether more blocks ended at the address of the name than its turn says.
fn has_ended(machine: &Machine, name: Name) -> bool
    ensures { (es : List TheEvent) → StandsFor machine.now es → result ≡ nat_lt name.turn (ends_in es (address_of name)) }
{
    if !is_place(machine, name.address) {
        return false;
    }
    let grain = name.address.0 / 16;
    match machine.block_at(grain) {
        Some(block) => name.turn < block.name.turn,
        None => name.turn < machine.gives_at(grain),
    }
}

/// Whether the guard goes down where the keeper sweeps.
fn goes_down(machine: &Machine, raised: &Raised, keeper: u8, all: bool) -> bool
    ensures { (es : List TheEvent) → StandsFor machine.now es → result ≡ goes_down es keeper all raised.now }
{
    if raised.keeper != keeper {
        return false;
    }
    all || has_ended(machine, raised.guard.block.name)
}

/// What is said of a guard that is lowered.
fn lowered(raised: &Raised) -> Record
    ensures { result ≡ lowered_record raised.now }
{
    let low = raised.guard.low;
    let high = raised.guard.high;
    Record::Said(raised.keeper, Said::Lowered { low, high })
}

/// Takes the lines of the guards that go down where the keeper sweeps, in order, and says whether they are there. After false the cursor has counted the line
/// that isn't.
fn take_lowered(
    machine: &Machine,
    text: &[u8],
    cursor: &mut Cursor,
    guards: &[Raised],
    keeper: u8,
    all: bool,
) -> bool
    requires within { IsWithin text.now cursor.old }
    ensures taken { LinesSwept machine.now text.now cursor.old cursor.new guards.now keeper all [] result }
    ensures within { StaysWithin text.now cursor.new result }
{
    for guard in guards {
        if goes_down(machine, guard, keeper, all) && !take_record(text, cursor, &lowered(guard)) {
            return false;
        }
    }
    true
}

/// Takes the lines of the guards that go down where the keeper sweeps; the others stay up.
fn sweep(judge: &mut Judge, text: &[u8], cursor: &mut Cursor, keeper: u8, all: bool) -> bool
    requires within { IsWithin text.now cursor.old }
    ensures taken { (f : Profile) → GuardsSwept f text.now judge.old cursor.old judge.new cursor.new keeper all result }
    ensures within { StaysWithin text.now cursor.new result }
    ensures sized { IsSizedAs judge.old judge.new }
{
    let machine = &judge.machine;
    if !take_lowered(machine, text, cursor, &judge.guards, keeper, all) {
        return false;
    }
    judge
        .guards
        .retain(|guard| !goes_down(machine, guard, keeper, all));
    true
}

/// Takes the lines of the keeper's last sweep, which lowers all its guards.
pub(crate) fn lower(judge: &mut Judge, text: &[u8], cursor: &mut Cursor, keeper: u8) -> bool
    requires within { IsWithin text.now cursor.old }
    ensures taken { (f : Profile) → ActTaken f text.now judge.old cursor.old judge.new cursor.new (Lowers keeper) result }
    ensures within { StaysWithin text.now cursor.new result }
    ensures sized { IsSizedAs judge.old judge.new }
{
    sweep(judge, text, cursor, keeper, true)
}

/// Whether a page was backed before, or is by the event.
fn has_backed(backed: bool, event: &Event) -> bool
    ensures { result ≡ (backed || is_back event.now) }
{
    if backed {
        return true;
    }
    match *event {
        Event::Back { .. } => true,
        _ => false,
    }
}

/// Takes the lines of a keeper for a guarded request: deeds and backs, as many as there are, and then a give. Where it backed no page, they may end without
/// one, in front of the line that the cursor has passed then.
fn take_trial(
    machine: &mut Machine,
    text: &[u8],
    cursor: &mut Cursor,
    keeper: u8,
    wanted: &Wanted,
) -> Trial
    requires within { IsWithin text.now cursor.old }
    requires valid { IsValid (profile_of machine.old) }
    requires align { 0 < wanted.now.align }
    ensures profile { profile_of machine.new ≡ profile_of machine.old }
    ensures taken { TrialTaken machine.old machine.new text.now cursor.old cursor.new keeper wanted.now result }
    ensures stays { TrialStays text.now cursor.new result }
    ensures heap { IsGiftOf wanted.now result }
{
    let mut backed = false;
    'lines: loop {
        let start = *cursor;
        let Some(line) = next_line(text, cursor) else {
            return Trial::Stops;
        };
        let Some(event) = take_event(machine, &read(line), keeper, wanted) else {
            if backed {
                return Trial::Stops;
            }
            return Trial::Passes(start);
        };
        if let Some(block) = block_in(&event) {
            return Trial::Gives(block);
        }
        backed = has_backed(backed, &event);
    }
}

/// The guard of the block; None where there is no page of the region below it or above it.
fn guard_for(machine: &Machine, block: &Block) -> Option<Guard>
    ensures { MatchOption result (has_sides (profile_of machine.now) block.now ≡ false)
        (λ guard. (has_sides (profile_of machine.now) block.now ≡ true) × (guard ≡ guard_of block.now)) }
{
    let grain = block.name.address.0 / 16;
    let low = (grain / 256).saturating_sub(1);
    let high = (grain + block.room / 16).saturating_sub(1) / 256 + 1;
    if !machine.has_page(low) {
        return None;
    }
    if !machine.has_page(high) {
        return None;
    }
    Some(Guard {
        low,
        high,
        block: *block,
    })
}

/// The keeper's block was given for the name: takes the line of its guard, which is up from then on. Without a page below the block or above it no line can
/// come.
fn raise(
    judge: &mut Judge,
    text: &[u8],
    cursor: &mut Cursor,
    keeper: u8,
    name: u32,
    block: Block,
) -> bool
    requires within { IsWithin text.now cursor.old }
    requires named { name < names_held judge.old.names }
    requires heap { block.heap < 32 }
    ensures taken { (f : Profile) (s : Stand) → Stands f judge.old s cursor.old
        → IsCarried f text.now (raising (has_sides f block) (with_name s name (Some block)) keeper name block []) cursor.old judge.new cursor.new result }
    ensures within { StaysWithin text.now cursor.new result }
    ensures sized { IsSizedAs judge.old judge.new }
{
    judge.names.set(name, Some(block));
    let Some(guard) = guard_for(&judge.machine, &block) else {
        let _ = next_line(text, cursor);
        return false;
    };
    let Ok(()) = judge.guards.push(Raised { keeper, guard }) else {
        judge.lacks_memory = true;
        return false;
    };
    let low = guard.low;
    let high = guard.high;
    take_record(
        text,
        cursor,
        &Record::Said(keeper, Said::Guarded { low, high, name }),
    )
}

/// Takes the lines of a request that the keeper tries, and, where it gives no block, its thread is served.
fn take_tried(
    judge: &mut Judge,
    text: &[u8],
    cursor: &mut Cursor,
    k: u8,
    keeper: u8,
    wanted: Wanted,
) -> bool
    requires within { IsWithin text.now cursor.old }
    requires valid { IsValid (profile_of judge.old.machine) }
    requires kind { IsKind wanted.directory.kind }
    requires align { 0 < wanted.align }
    requires heap { wanted.directory.heap < 32 }
    requires named { wanted.name < names_held judge.old.names }
    requires apart { keeper ≢ k }
    ensures taken { (f : Profile) (s : Stand) (r : Request) → Stands f judge.old s cursor.old → IsWanted f r wanted
        → s.due ≡ Tries keeper k r false ∷ [] → IsCarried f text.now s cursor.old judge.new cursor.new result }
    ensures within { StaysWithin text.now cursor.new result }
    ensures sized { IsSizedAs judge.old judge.new }
{
    match take_trial(&mut judge.machine, text, cursor, keeper, &wanted) {
        Trial::Gives(block) => raise(judge, text, cursor, keeper, wanted.name, block),
        Trial::Passes(place) => {
            *cursor = place;
            serve(judge, text, cursor, k, wanted, None)
        }
        Trial::Stops => false,
    }
}

/// Takes the lines of an act that asks the keeper for what the thread wants: those of its sweep come first.
pub(crate) fn try_request(
    judge: &mut Judge,
    text: &[u8],
    cursor: &mut Cursor,
    k: u8,
    keeper: u8,
    wanted: Wanted,
) -> bool
    requires within { IsWithin text.now cursor.old }
    requires valid { IsValid (profile_of judge.old.machine) }
    requires kind { IsKind wanted.directory.kind }
    requires align { 0 < wanted.align }
    requires heap { wanted.directory.heap < 32 }
    requires named { wanted.name < names_held judge.old.names }
    requires apart { keeper ≢ k }
    ensures taken { (f : Profile) (act : Act) (r : Request) → AsksKeeper f judge.old cursor.old act keeper k r → IsWanted f r wanted
        → ActTaken f text.now judge.old cursor.old judge.new cursor.new act result }
    ensures within { StaysWithin text.now cursor.new result }
    ensures sized { IsSizedAs judge.old judge.new }
{
    if !sweep(judge, text, cursor, keeper, false) {
        return false;
    }
    take_tried(judge, text, cursor, k, keeper, wanted)
}
