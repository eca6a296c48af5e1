//! Lines of a request: deeds, backs and a give, or a refusal.
ghost use Rattle.std.specs.Prelude.{ℕ, ◌≡◌, ◌≢◌, ◌*◌, ◌<◌, ◌≤◌, IfSome, List, MatchBool, Some};
ghost use Rattle.pas_profile.specs.{Directories.IsKind, Classes.IsAlignment, Profiles.IsValid, declared.event.Event.Event as TheEvent};
ghost use Rattle.pas_machine.specs.{State.deed_in, Places.IsEach, Machines.{profile_of, StandsFor}};
ghost use Rattle.pas_trace.specs.declared.item.Request.{Request};
ghost use Rattle.pas_check.specs.{Calls.{asked_for, EventTaken, GivesOf, IsFitting, IsWanted, LiesOn, RefusalSeen}, States.Stand, Takes.{block_in, IsServing}};

use crate::taking::step;
use pas_machine::Machine;
use pas_profile::{Block, Directory, Event, Kind, Profile, Route};
use pas_records::{Record, Said};
use pas_utility::HeapTable;

/// What a request asks for: a block for this name, of this room, at a multiple of this alignment, on pages of this directory.
#[derive(Clone, Copy, Drop)]
pub(crate) struct Wanted {
    pub name: u32,
    pub room: u32,
    pub align: u32,
    pub directory: Directory,
}

/// What is wanted by a request of a size and an alignment that the region may serve, in one of 32 heaps.
pub(crate) fn wanted_for(profile: &Profile, name: u32, heap: u8, size: u32, align: u32) -> Wanted
    requires valid { IsValid profile.now }
    requires size { size ≤ profile.now.pages * 4096 }
    requires align { IsAlignment align }
    requires heap { heap < 32 }
    ensures wanted { IsWanted profile.now (asked_for name heap size align) result }
    ensures kind { IsKind result.directory.kind }
    ensures heap { result.directory.heap ≡ heap }
    ensures align { 0 < result.align }
{
    let kind = match profile.route(size, align) {
        Route::Class(class) => HeapTable::new(profile).kind_for(heap, class),
        Route::Bitfit => Kind::Bitfit,
        Route::Large => Kind::Large,
    };
    Wanted {
        name,
        room: profile.room_for(size, align),
        align,
        directory: Directory { heap, kind },
    }
}

/// Whether the page has a deed of the directory.
fn has_deed(machine: &Machine, page: u32, directory: Directory) -> bool
    ensures { (es : List TheEvent) → StandsFor machine.now es → MatchBool result (deed_in es page ≡ Some directory) (deed_in es page ≢ Some directory) }
{
    if !machine.has_page(page) {
        return false;
    }
    match machine.deed_of(page) {
        Some(found) => found == directory,
        None => false,
    }
}

/// Whether each of these pages has a deed of the directory. Looks at each at most once, and at none after one that hasn't.
fn have_deeds(machine: &Machine, from: u32, until: u32, directory: Directory) -> bool
    ensures { (es : List TheEvent) → StandsFor machine.now es → MatchBool result (IsEach from until (λ page. deed_in es page ≡ Some directory))
        (IsEach from until (λ page. deed_in es page ≡ Some directory) → ⊥) }
{
    for page in from..until {
        if !has_deed(machine, page, directory) {
            return false;
        }
    }
    true
}

/// Whether each page under the block has a deed of the directory.
fn lies_on(machine: &Machine, block: &Block, directory: Directory) -> bool
    ensures { (es : List TheEvent) → StandsFor machine.now es → MatchBool result (LiesOn es block.now directory) (LiesOn es block.now directory → ⊥) }
{
    let grains = block.room / 16;
    if grains == 0 {
        return true;
    }
    let first = block.name.address.0 / 16;
    let last = first + (grains - 1);
    have_deeds(machine, first / 256, last / 256 + 1, directory)
}

/// Whether the block has the heap, the room and the alignment that are wanted.
fn fits(block: &Block, wanted: &Wanted) -> bool
    requires align { 0 < wanted.now.align }
    ensures { MatchBool result (IsFitting block.now wanted.now) (IsFitting block.now wanted.now → ⊥) }
{
    block.heap == wanted.directory.heap
        && block.room == wanted.room
        && block.name.address.0 % wanted.align == 0
}

/// Whether the event serves what the actor wants: a deed of its directory, a back, or the give of a block for it.
fn serves(machine: &Machine, event: &Event, actor: u8, wanted: &Wanted) -> bool
    requires align { 0 < wanted.now.align }
    ensures serves { (s : Stand) (r : Request) → IsWanted (profile_of machine.now) r wanted.now → StandsFor machine.now s.events
        → MatchBool result (IsServing (profile_of machine.now) s actor r event.now) (IsServing (profile_of machine.now) s actor r event.now → ⊥) }
    ensures heap { MatchBool result (GivesOf wanted.now.directory.heap event.now) (Unit {0}) }
{
    match *event {
        Event::Deed {
            actor: k,
            directory,
            ..
        } => k == actor && directory == wanted.directory,
        Event::Back { actor: k, .. } => k == actor,
        Event::Give { actor: k, block } => {
            k == actor && fits(&block, wanted) && lies_on(machine, &block, wanted.directory)
        }
        _ => false,
    }
}

/// Takes the line of which this was read where it is of an event that serves what the actor wants and may come next, and says which event that is. None where
/// it is no such line.
pub(crate) fn take_event(
    machine: &mut Machine,
    found: &Option<Record>,
    actor: u8,
    wanted: &Wanted,
) -> Option<Event>
    requires align { 0 < wanted.now.align }
    ensures profile { profile_of machine.new ≡ profile_of machine.old }
    ensures heap { IfSome result (λ event. GivesOf wanted.now.directory.heap event) }
    ensures taken { EventTaken (profile_of machine.old) machine.old machine.new actor wanted.now found.now result }
{
    let Some(Record::Event(event)) = *found else {
        return None;
    };
    if !serves(machine, &event, actor, wanted) {
        return None;
    }
    if !step(machine, &event) {
        return None;
    }
    Some(event)
}

/// The block that the event gives; None where it gives none.
pub(crate) fn block_in(event: &Event) -> Option<Block>
    ensures { result ≡ block_in event.now }
{
    match *event {
        Event::Give { block, .. } => Some(block),
        _ => None,
    }
}

/// Whether the line of which this was read says that what the actor wants can't be had: for want of space, or since a page of its directory is held.
pub(crate) fn is_refusal(
    machine: &Machine,
    found: &Option<Record>,
    actor: u8,
    wanted: &Wanted,
) -> bool
    ensures { RefusalSeen (profile_of machine.now) machine.now actor wanted.now found.now result }
{
    match *found {
        Some(Record::Said(k, Said::NoSpace { name })) => k == actor && name == wanted.name,
        Some(Record::Said(k, Said::Held { page, name })) => {
            k == actor && name == wanted.name && has_deed(machine, page, wanted.directory)
        }
        _ => false,
    }
}
