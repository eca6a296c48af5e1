//! The end of one name.
ghost use Rattle.std.specs.Prelude.{◌≡◌, ◌≤◌, ◌↔◌, true, false, IfSome, IsTrue, MatchOption};
ghost use Rattle.pas_profile.specs.{Lives.grains_of, Directories.IsKind, Entries.{entry_of, is_sized}};
ghost use Rattle.pas_steps.specs.Desks.{CanCall};
ghost use Rattle.pas_free_log.specs.{Conditions.{IsNameOf, IsEntryOf, KnowsEpoch}, Endings.{guess_by, is_of, EndsOne}};

use pas_profile::classes::class_size;
use pas_profile::limits::{GRAIN_BYTES, PAGE_BYTES};
use pas_profile::{Directory, Entry, Kind, Name, Profile, Word, life_word, read_deed, read_life};
use pas_steps::Desk;

/// What came of the end of a name.
#[derive(Clone, Copy, PartialEq, Eq, Drop)]
pub enum Outcome {
    /// A block of so many grains ended. The actor holds them.
    Ended { grains: u32 },
    /// This life word was read, which isn't that of the name's block.
    Refused { read: u64 },
}

/// Whether the end of the name may be tried in a region of this profile: its address is a multiple of 16 on a page of the region, and its turn is
/// below 2^40 - 1. Whether a block of this name lives isn't asked.
pub fn may_end(profile: &Profile, name: Name) -> bool
    ensures { IsTrue result ↔ IsNameOf profile.now name }
{
    let page = name.address.0 / PAGE_BYTES;
    (1..=profile.pages).contains(&page)
        && name.address.0 % GRAIN_BYTES == 0
        && name.turn < (1 << 40) - 1
}

/// How many grains a block has that begins on a page of the directory: right for every block of a class, and 1 otherwise.
fn guess(directory: Option<Directory>) -> u32
    requires { IfSome directory (λ d. IsKind d.kind) }
    ensures { result ≡ guess_by directory }
{
    match directory {
        Some(
            Directory {
                heap: _,
                kind: Kind::Class(class),
            },
        ) => class_size(class) / GRAIN_BYTES,
        _ => 1,
    }
}

/// The length of the name's block in grains. None exactly where the life word isn't that of a live block with the name's turn.
fn length_in(name: Name, read: u64) -> Option<u32>
    ensures { MatchOption result (is_of name read ≡ false) (λ grains. (is_of name read ≡ true) × (grains ≡ grains_of read)) }
{
    let (turn, grains, live) = read_life(read);
    if live && turn == name.turn {
        Some(grains)
    } else {
        None
    }
}

/// Ends the block of this name, whatever its length, and answers what came of it, with the directory that the deed word of the name's page told.
/// Two or three steps, and one event.
///
/// The first try is made with a length that is guessed by the deed of the name's page. Where it reads a live block of the name's turn with
/// another length, a second try is made with that length.
fn end_named<D: Desk>(desk: &mut D, name: Name) -> (Outcome, Option<Directory>)
    requires name { IsNameOf (D.standing desk.old).seat.profile name }
    requires room { 1 ≤ D.spare_of desk.old }
    requires can { CanCall (D.standing desk.old) KnowsEpoch }
    ensures ends { EndsOne (entry_of name) (D.standing desk.old) (D.standing desk.new) result.0 result.1 }
    ensures home { D.home desk.new ≡ D.home desk.old }
{
    let deed = desk.look(Word::Deed(name.address.0 / PAGE_BYTES));
    let directory = read_deed(deed);
    let first = guess(directory);
    let read = desk.end(name, first);
    if read == life_word(name.turn, first, true) {
        return (Outcome::Ended { grains: first }, directory);
    }
    let Some(grains) = length_in(name, read) else {
        return (Outcome::Refused { read }, directory);
    };
    let read = desk.end(name, grains);
    if read == life_word(name.turn, grains, true) {
        (Outcome::Ended { grains }, directory)
    } else {
        (Outcome::Refused { read }, directory)
    }
}

/// Ends the block of the entry's name where it has the entry's room, and answers what came of it, with the directory that the deed word of the name's
/// page told. Two steps, and one event.
fn end_by_room<D: Desk>(desk: &mut D, entry: Entry) -> (Outcome, Option<Directory>)
    requires entry { IsEntryOf (D.standing desk.old).seat.profile entry }
    requires sized { is_sized entry ≡ true }
    requires room { 1 ≤ D.spare_of desk.old }
    requires can { CanCall (D.standing desk.old) KnowsEpoch }
    ensures ends { EndsOne entry (D.standing desk.old) (D.standing desk.new) result.0 result.1 }
    ensures home { D.home desk.new ≡ D.home desk.old }
{
    let deed = desk.look(Word::Deed(entry.name.address.0 / PAGE_BYTES));
    let directory = read_deed(deed);
    let read = desk.end_sized(entry.name, entry.room);
    let length = entry.room / GRAIN_BYTES;
    if read == life_word(entry.name.turn, length, true) {
        (Outcome::Ended { grains: length }, directory)
    } else {
        (Outcome::Refused { read }, directory)
    }
}

/// Ends the block of the entry's name: where it has the entry's room, or whatever its length, where the entry has none.
pub(crate) fn end_logged<D: Desk>(desk: &mut D, entry: Entry) -> (Outcome, Option<Directory>)
    requires entry { IsEntryOf (D.standing desk.old).seat.profile entry }
    requires room { 1 ≤ D.spare_of desk.old }
    requires can { CanCall (D.standing desk.old) KnowsEpoch }
    ensures ends { EndsOne entry (D.standing desk.old) (D.standing desk.new) result.0 result.1 }
    ensures home { D.home desk.new ≡ D.home desk.old }
{
    if entry.room == 0 {
        end_named(desk, entry.name)
    } else {
        end_by_room(desk, entry)
    }
}
