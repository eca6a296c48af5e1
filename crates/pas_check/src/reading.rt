//! The record that a line is: what it may be is read loosely, and then its line is compared.
ghost use Rattle.std.specs.Prelude.{◌≡◌, ◌≢◌, IfSome, MatchBool, Some, false};
ghost use Rattle.pas_profile.specs.{Requests.kind_of_route, Routes.route_of};
ghost use Rattle.pas_records.specs.{Lines.{line_of, CanShow}, declared.record.Record.Record as TheRecord};
ghost use Rattle.pas_check.specs.{Calls.IsRead, Ranges.Fits, Readings.{byte_at, of_u8, past_digits as after_digits, name_at, past_name as after_name, kind_at}};
ghost use Rattle.pas_check.specs.Readings.{directory_at, deed_at, back_at, unback_at, give_at, freed_at, held_at, in_use_at, young_at, size_differs_at};
ghost use Rattle.pas_check.specs.Readings.{guarded_at, kept_at, lowered_at, with_b, with_u, with_g, with_n, with_s, word_at, record_at};

use crate::numbers::{byte, hex8, hex16, number, number8, number32, past_digits, skip};
use pas_profile::limits::MOST_CLASSES;
use pas_profile::{Address, Block, Directory, Event, Kind, Name, Route, Why, route};
use pas_records::{Line, Record, Said, push_record};

/// An address and a turn, with a space before them.
fn name(text: &[u8]) -> Name
    ensures { result ≡ name_at text.now }
{
    Name {
        address: Address(hex8(skip(text, 3))),
        turn: number(skip(text, 17)),
    }
}

/// What stands behind them.
fn past_name(text: &[u8]) -> &[u8]
    ensures { result.now ≡ after_name text.now }
{
    past_digits(skip(text, 17))
}

/// The kind whose number of bytes is that of a class.
fn kind_of_size(size: u32) -> Kind
    ensures { result ≡ kind_of_route false (route_of 20 size 16) }
{
    match route(MOST_CLASSES, size, 16) {
        Route::Class(class) => Kind::Class(class),
        Route::Bitfit => Kind::Bitfit,
        Route::Large => Kind::Large,
    }
}

/// The kind of a page's directory, with a space before it.
fn kind(text: &[u8]) -> Kind
    ensures { result ≡ kind_at text.now }
{
    match byte(text, 1) {
        b'c' => kind_of_size(number32(skip(text, 7))),
        b'b' => Kind::Bitfit,
        b's' => Kind::Shared,
        _ => Kind::Large,
    }
}

/// A heap and a kind.
fn directory(text: &[u8]) -> Directory
    ensures { result ≡ directory_at text.now }
{
    let heap = skip(text, 6);
    Directory {
        heap: number8(heap),
        kind: kind(past_digits(heap)),
    }
}

// ---- what stands behind the actor, by the word there
fn deed(actor: u8, text: &[u8]) -> Event
    ensures { result ≡ deed_at actor text.now }
{
    let page = skip(text, 11);
    Event::Deed {
        actor,
        page: number32(page),
        directory: directory(past_digits(page)),
    }
}

/// The event of a line `back`.
fn back(actor: u8, text: &[u8]) -> Event
    ensures { result ≡ back_at actor text.now }
{
    Event::Back {
        actor,
        page: number32(skip(text, 11)),
    }
}

/// The event of a line `unback`.
fn unback(actor: u8, text: &[u8]) -> Event
    ensures { result ≡ unback_at actor text.now }
{
    let page = skip(text, 13);
    Event::Unback {
        actor,
        page: number32(page),
        epoch: number(skip(past_digits(page), 7)),
    }
}

/// The event of a line `give`.
fn give(actor: u8, text: &[u8]) -> Event
    ensures { result ≡ give_at actor text.now }
{
    let behind = skip(text, 5);
    let room = skip(past_name(behind), 6);
    let block = Block {
        name: name(behind),
        room: number32(room),
        heap: number8(skip(past_digits(room), 6)),
    };
    Event::Give { actor, block }
}

/// The event of a line `freed`.
fn freed(actor: u8, text: &[u8]) -> Event
    ensures { result ≡ freed_at actor text.now }
{
    let behind = skip(text, 6);
    Event::End {
        actor,
        name: name(behind),
        epoch: number(skip(past_name(behind), 7)),
    }
}

/// What a line `held` says.
fn held(text: &[u8]) -> Said
    ensures { result ≡ held_at text.now }
{
    let page = skip(text, 6);
    Said::Held {
        page: number32(page),
        name: number32(skip(past_digits(page), 6)),
    }
}

/// What a line `young` says.
fn young(text: &[u8]) -> Said
    ensures { result ≡ young_at text.now }
{
    let page = skip(text, 12);
    Said::Young {
        page: number32(page),
        stamp: number(skip(past_digits(page), 7)),
    }
}

/// What a line `in-use` says.
fn in_use(text: &[u8]) -> Said
    ensures { result ≡ in_use_at text.now }
{
    let page = skip(text, 13);
    let word = skip(past_digits(page), 6);
    Said::InUse {
        page: number32(page),
        word: number8(word),
        value: hex16(skip(past_digits(word), 9)),
    }
}

/// The event of a line `size-differs`.
fn size_differs(actor: u8, text: &[u8]) -> Event
    ensures { result ≡ size_differs_at actor text.now }
{
    let behind = skip(text, 13);
    let room = number32(skip(past_name(behind), 7));
    Event::Reject {
        actor,
        name: name(behind),
        why: Why::SizeDiffers(room),
    }
}

/// What a line `kept` says.
fn kept(text: &[u8]) -> Said
    ensures { result ≡ kept_at text.now }
{
    let block = skip(text, 5);
    Said::Kept {
        block: name(block),
        name: number32(skip(past_name(block), 6)),
    }
}

/// What a line `guarded` says.
fn guarded(text: &[u8]) -> Said
    ensures { result ≡ guarded_at text.now }
{
    let low = skip(text, 9);
    let high = skip(past_digits(low), 1);
    Said::Guarded {
        low: number32(low),
        high: number32(high),
        name: number32(skip(past_digits(high), 6)),
    }
}

/// What a line `lowered` says.
fn lowered(text: &[u8]) -> Said
    ensures { result ≡ lowered_at text.now }
{
    let low = skip(text, 9);
    Said::Lowered {
        low: number32(low),
        high: number32(skip(past_digits(low), 1)),
    }
}

// ---- words with one first letter
fn begun_by_b(actor: u8, text: &[u8]) -> Record
    ensures { result ≡ with_b actor text.now }
{
    if byte(text, 3) == b'c' {
        Record::Event(back(actor, text))
    } else {
        Record::Said(actor, Said::Bare(number32(skip(text, 11))))
    }
}

/// The record of a line whose word begins with `u`.
fn begun_by_u(actor: u8, text: &[u8]) -> Record
    ensures { result ≡ with_u actor text.now }
{
    if byte(text, 3) == b'b' {
        Record::Event(unback(actor, text))
    } else {
        let block = name(skip(text, 10));
        Record::Said(actor, Said::Unaligned { block })
    }
}

/// The record of a line whose word begins with `g`.
fn begun_by_g(actor: u8, text: &[u8]) -> Record
    ensures { result ≡ with_g actor text.now }
{
    if byte(text, 2) == b'i' {
        Record::Event(give(actor, text))
    } else {
        Record::Said(actor, guarded(text))
    }
}

/// The record of a line whose word begins with `n`.
fn begun_by_n(actor: u8, text: &[u8]) -> Record
    ensures { result ≡ with_n actor text.now }
{
    match byte(text, 4) {
        b'b' => {
            let name = name(skip(text, 9));
            Record::Event(Event::Reject {
                actor,
                name,
                why: Why::NoBlock,
            })
        }
        b's' => Record::Said(
            actor,
            Said::NoSpace {
                name: number32(skip(text, 15)),
            },
        ),
        _ => Record::Said(actor, Said::NotOffered(number32(skip(text, 18)))),
    }
}

/// The record of a line whose word begins with `s`.
fn begun_by_s(actor: u8, text: &[u8]) -> Record
    ensures { result ≡ with_s actor text.now }
{
    match byte(text, 2) {
        b'k' => {
            let name = number32(skip(text, 14));
            Record::Said(actor, Said::Skipped { name })
        }
        b'i' => Record::Event(size_differs(actor, text)),
        _ => Record::Said(actor, Said::Stopped(number8(skip(text, 9)))),
    }
}

/// What the actor says or does, by the first letter of the word.
fn worded(letter: u8, actor: u8, text: &[u8]) -> Record
    ensures { result ≡ word_at letter actor text.now }
{
    match letter {
        b'd' => Record::Event(deed(actor, text)),
        b'b' => begun_by_b(actor, text),
        b'u' => begun_by_u(actor, text),
        b'g' => begun_by_g(actor, text),
        b'f' => Record::Event(freed(actor, text)),
        b'e' => {
            let name = name(skip(text, 6));
            Record::Event(Event::Reject {
                actor,
                name,
                why: Why::Ended,
            })
        }
        b'n' => begun_by_n(actor, text),
        b'h' => Record::Said(actor, held(text)),
        b'o' => {
            let block = name(skip(text, 8));
            Record::Said(actor, Said::Outside { block })
        }
        b's' => begun_by_s(actor, text),
        b't' => Record::Said(actor, Said::Tick(number(skip(text, 6)))),
        b'p' => Record::Said(actor, Said::Pass(number(skip(text, 6)))),
        b'y' => Record::Said(actor, young(text)),
        b'l' => Record::Said(actor, lowered(text)),
        b'k' => Record::Said(actor, kept(text)),
        _ => Record::Said(actor, in_use(text)),
    }
}

/// What an actor says or does.
fn spoken(line: &[u8]) -> Record
    ensures { result ≡ word_at (byte_at 1 (after_digits line.now)) (of_u8 line.now) (after_digits line.now) }
{
    let text = past_digits(line);
    worded(byte(text, 1), number8(line), text)
}

/// The record that the line may be of.
fn guess(line: &[u8]) -> Record
    ensures { result ≡ record_at line.now }
{
    match byte(line, 0) {
        b'p' => Record::Phase(number32(skip(line, 6))),
        b'c' => Record::Close,
        _ => spoken(line),
    }
}

/// Whether the record has a line: a deed's class is one.
fn can_show(item: &Record) -> bool
    ensures { MatchBool result (CanShow item.now) (CanShow item.now → ⊥) }
{
    match *item {
        Record::Event(Event::Deed { directory, .. }) => match directory.kind {
            Kind::Class(class) => class < MOST_CLASSES,
            _ => true,
        },
        _ => true,
    }
}

/// Whether the line is this record's. The record's line is made where it is compared, without a copy.
pub(crate) fn is_line(line: &[u8], item: &Record) -> bool
    requires { CanShow item.now }
    ensures { MatchBool result (line.now ≡ line_of item.now) (line.now ≢ line_of item.now) }
{
    let mut wanted = Line::new();
    push_record(&mut wanted, item);
    wanted.as_bytes() == line
}

/// What is read of a line: its record, or None.
pub(crate) fn read(line: &[u8]) -> Option<Record>
    ensures { IsRead line.now result }
{
    read_record(line)
}

/// The record whose line this is, with its newline; None where it is of no record whose numbers fit their places. Takes no memory, and time in
/// the length of the line.
pub fn read_record(line: &[u8]) -> Option<Record>
    ensures some { IfSome result (λ r. line.now ≡ line_of r) }
    ensures only { (r : TheRecord) → Fits r → line.now ≡ line_of r → result ≡ Some r }
{
    let found = guess(line);
    if !can_show(&found) {
        return None;
    }
    if !is_line(line, &found) {
        return None;
    }
    Some(found)
}
