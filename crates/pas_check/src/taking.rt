//! Lines that the machine judges, and those of the entries of a log.
ghost use Rattle.std.specs.Prelude.{ℕ, ◌≡◌, List, MatchBool, None, Some};
ghost use Rattle.pas_profile.specs.{Directories.IsKind, Profiles.IsValid, Blocks.address_of, declared.{event.Event.Event as TheEvent, profile.Profile.Profile}};
ghost use Rattle.pas_machine.specs.{Machine.{IsPlace, Run}, Machines.{profile_of, StandsFor}, State.{Live, gives_in, live_in}};
ghost use Rattle.pas_check.specs.{Calls.{IsStepped, IsTrueReason, EntryTaken}, States.Stand, Takes.IsEventOf};
ghost use Rattle.pas_records.specs.Lines.{IsShowable};

use crate::reading::is_line;
use pas_machine::Machine;
use pas_profile::{Address, Block, Directory, Entry, Event, Name, Why};
use pas_records::Record;

/// Takes the event where it may come next, and says whether it may, where there were less than 2^32 before it: the machine counts so many.
pub(crate) fn step(machine: &mut Machine, event: &Event) -> bool
    ensures profile { profile_of machine.new ≡ profile_of machine.old }
    ensures stepped { IsStepped machine.old machine.new event.now result }
{
    machine.step(event).is_ok()
}

/// Whether the address is that of a grain of the region.
pub(crate) fn is_place(machine: &Machine, address: Address) -> bool
    ensures { MatchBool result (IsPlace (profile_of machine.now) address.0) (IsPlace (profile_of machine.now) address.0 → ⊥) }
{
    machine.has_page(address.0 / 4096) && address.0 % 16 == 0
}

/// Why the entry's name can't end beside the block that lives at its address, if there is a reason.
fn reason_beside(block: &Block, entry: Entry) -> Option<Why>
    ensures { (f : Profile) (es : List TheEvent) → Run f es → (b : Live) → live_in es (address_of entry.name) ≡ Some b → b.block ≡ block.now → IsTrueReason es entry result }
{
    if entry.name.turn < block.name.turn {
        return Some(Why::Ended);
    }
    if entry.name.turn > block.name.turn {
        return Some(Why::NoBlock);
    }
    if entry.room > 0 && entry.room != block.room {
        return Some(Why::SizeDiffers(entry.room));
    }
    None
}

/// Why the entry's name can't end, where no block lives at its address, at which so many were given.
fn reason_without(gives: u64, entry: Entry) -> Why
    ensures { (f : Profile) (es : List TheEvent) → Run f es → live_in es (address_of entry.name) ≡ None → gives_in es (address_of entry.name) ≡ gives → IsTrueReason es entry (Some result) }
{
    if entry.name.turn < gives {
        Why::Ended
    } else {
        Why::NoBlock
    }
}

/// Why the entry's name can't end, if there is a reason.
fn true_reason(machine: &Machine, entry: Entry) -> Option<Why>
    requires { IsPlace (profile_of machine.now) (address_of entry.name) }
    ensures { (es : List TheEvent) → StandsFor machine.now es → IsTrueReason es entry result }
{
    let grain = entry.name.address.0 / 16;
    match machine.block_at(grain) {
        Some(block) => reason_beside(&block, entry),
        None => Some(reason_without(machine.gives_at(grain), entry)),
    }
}

/// The event of an entry of the actor's log: the refusal with the true reason, or where there is none, the end in this epoch.
fn event_for(machine: &Machine, actor: u8, entry: Entry, epoch: u64) -> Event
    requires { IsPlace (profile_of machine.now) (address_of entry.name) }
    ensures event { (s : Stand) → StandsFor machine.now s.events → s.epoch ≡ epoch → IsEventOf s actor entry result }
    ensures shown { IsShowable result }
{
    let name = entry.name;
    match true_reason(machine, entry) {
        Some(why) => Event::Reject { actor, name, why },
        None => Event::End { actor, name, epoch },
    }
}

/// Takes the line of an entry of the actor's log, and says whether this is its line.
pub(crate) fn take_entry(
    machine: &mut Machine,
    line: &[u8],
    actor: u8,
    entry: Entry,
    epoch: u64,
) -> bool
    ensures profile { profile_of machine.new ≡ profile_of machine.old }
    ensures taken { EntryTaken (profile_of machine.old) machine.old machine.new actor entry epoch line.now result }
{
    if !is_place(machine, entry.name.address) {
        return false;
    }
    let event = event_for(machine, actor, entry, epoch);
    if !is_line(line, &Record::Event(event)) {
        return false;
    }
    step(machine, &event)
}
