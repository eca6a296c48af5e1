//! The line of each record.
ghost use Rattle.std.specs.Prelude.{◌≡◌, ◌+◌, ◌≤◌, ◌++◌, length};
ghost use Rattle.arrayvec.specs.ArrayString.{array_string_len};
ghost use Rattle.pas_profile.specs.Directories.{IsKind};
ghost use Rattle.pas_records.specs.declared.record.Record.TheVariants as Record;
ghost use Rattle.pas_records.specs.Lines.{CanShow, IsShowable, back_line as back_text, deed_line as deed_text, freed_line as freed_text};
ghost use Rattle.pas_records.specs.Lines.{give_line as give_text, guarded_line as guarded_text, held_line as held_text, in_use_line as in_use_text, line_of};
ghost use Rattle.pas_records.specs.Lines.{line_of_answer, line_of_event, kept_line as kept_text, lowered_line as lowered_text, numbered_line as numbered_text};
ghost use Rattle.pas_records.specs.Lines.{refused_line as refused_text, size_differs_line as size_differs_text, unback_line as unback_text};
ghost use Rattle.pas_records.specs.Lines.{young_line as young_text};

use crate::record::{Record, Said};
use crate::text::{Line, push_field, push_hex, push_kind, push_name, push_number};
use arrayvec::ArrayString;
use pas_profile::{Block, Directory, Event, Name, Why};

/// The line of a record. Takes no memory, and time in the length of the line.
pub fn record_line(item: &Record) -> Line
    requires { CanShow item.now }
    ensures { result.bytes ≡ line_of item.now }
{
    let mut line = Line::new();
    push_record(&mut line, item);
    line
}

/// The line of an event. Takes no memory, and time in the length of the line.
pub fn event_line(event: &Event) -> Line
    requires { IsShowable event.now }
    ensures { result.bytes ≡ line_of_event event.now }
{
    let mut line = Line::new();
    push_event(&mut line, event);
    line
}

/// The line of an answer to this actor. Takes no memory, and time in the length of the line.
pub fn said_line(actor: u8, said: &Said) -> Line
    ensures { result.bytes ≡ line_of_answer actor said.now }
{
    let mut line = Line::new();
    push_said(&mut line, actor, said);
    line
}

/// Adds the line of a record, which has at most 128 bytes, at the end of a text. There must be room for 128 bytes, and a deed's class must
/// be below 16. Takes no memory, and time in the length of the line.
#[inline(always)]
pub fn push_record<const C: usize>(text: &mut ArrayString<C>, item: &Record)
    requires shown { CanShow item.now }
    requires room { array_string_len text.old + 128 ≤ C }
    ensures bytes { text.new.bytes ≡ text.old.bytes ++ line_of item.now }
    ensures len { array_string_len text.new ≤ array_string_len text.old + 128 }
{
    match item {
        Record::Event(event) => push_event(text, event),
        Record::Said(actor, said) => push_said(text, *actor, said),
        Record::Phase(phase) => push_phase(text, *phase),
        Record::Close => text.push_str("close\n"),
    }
}

/// Adds the line of an event.
#[inline(always)]
fn push_event<const C: usize>(text: &mut ArrayString<C>, event: &Event)
    requires shown { IsShowable event.now }
    requires room { array_string_len text.old + 128 ≤ C }
    ensures bytes { text.new.bytes ≡ text.old.bytes ++ line_of_event event.now }
    ensures len { array_string_len text.new ≤ array_string_len text.old + 128 }
{
    match *event {
        Event::Deed {
            actor,
            page,
            directory,
        } => push_deed(text, actor, page, directory),
        Event::Back { actor, page } => push_back(text, actor, page),
        Event::Unback { actor, page, epoch } => push_unback(text, actor, page, epoch),
        Event::Give { actor, block } => push_give(text, actor, block),
        Event::End { actor, name, epoch } => push_freed(text, actor, name, epoch),
        Event::Reject {
            actor,
            name,
            why: Why::Ended,
        } => push_refused(text, actor, " ended", name),
        Event::Reject {
            actor,
            name,
            why: Why::NoBlock,
        } => push_refused(text, actor, " no-block", name),
        Event::Reject {
            actor,
            name,
            why: Why::SizeDiffers(room),
        } => push_size_differs(text, actor, name, room),
    }
}

/// Adds the line of an answer to this actor.
fn push_said<const C: usize>(text: &mut ArrayString<C>, actor: u8, said: &Said)
    requires { array_string_len text.old + 128 ≤ C }
    ensures bytes { text.new.bytes ≡ text.old.bytes ++ line_of_answer actor said.now }
    ensures len { array_string_len text.new ≤ array_string_len text.old + 128 }
{
    match *said {
        Said::NoSpace { name } => push_numbered(text, actor, " no-space name ", name as u64),
        Said::Held { page, name } => push_held(text, actor, page, name),
        Said::Outside { block } => push_refused(text, actor, " outside", block),
        Said::Unaligned { block } => push_refused(text, actor, " unaligned", block),
        Said::Skipped { name } => push_numbered(text, actor, " skipped name ", name as u64),
        Said::Kept { block, name } => push_kept(text, actor, block, name),
        Said::Tick(epoch) => push_numbered(text, actor, " tick ", epoch),
        Said::Pass(epoch) => push_numbered(text, actor, " pass ", epoch),
        Said::Bare(page) => push_numbered(text, actor, " bare page ", page as u64),
        Said::Young { page, stamp } => push_young(text, actor, page, stamp),
        Said::InUse { page, word, value } => push_in_use(text, actor, page, word, value),
        Said::NotOffered(page) => push_numbered(text, actor, " not-offered page ", page as u64),
        Said::Stopped(thread) => push_numbered(text, actor, " stopped ", thread as u64),
        Said::Guarded { low, high, name } => push_guarded(text, actor, low, high, name),
        Said::Lowered { low, high } => push_lowered(text, actor, low, high),
    }
}

/// Adds the line of the start of a phase.
fn push_phase<const C: usize>(text: &mut ArrayString<C>, phase: u32)
    requires { array_string_len text.old + 128 ≤ C }
    ensures bytes { text.new.bytes ≡ text.old.bytes ++ line_of (Record.Phase phase) }
    ensures len { array_string_len text.new ≤ array_string_len text.old + 128 }
{
    push_field(text, "phase ", phase);
    text.push_str("\n");
}

/// Adds the line of a deed.
fn push_deed<const C: usize>(text: &mut ArrayString<C>, actor: u8, page: u32, directory: Directory)
    requires kind { IsKind directory.kind }
    requires room { array_string_len text.old + 128 ≤ C }
    ensures bytes { text.new.bytes ≡ text.old.bytes ++ deed_text actor page directory }
    ensures len { array_string_len text.new ≤ array_string_len text.old + 128 }
{
    push_number(text, actor);
    push_field(text, " deed page ", page);
    push_field(text, " heap ", directory.heap);
    text.push_str(" ");
    push_kind(text, directory.kind);
    text.push_str("\n");
}

/// Adds the line of a page that is backed now.
fn push_back<const C: usize>(text: &mut ArrayString<C>, actor: u8, page: u32)
    requires { array_string_len text.old + 128 ≤ C }
    ensures bytes { text.new.bytes ≡ text.old.bytes ++ back_text actor page }
    ensures len { array_string_len text.new ≤ array_string_len text.old + 128 }
{
    push_number(text, actor);
    push_field(text, " back page ", page);
    text.push_str("\n");
}

/// Adds the line of a page whose memory went back.
fn push_unback<const C: usize>(text: &mut ArrayString<C>, actor: u8, page: u32, epoch: u64)
    requires { array_string_len text.old + 128 ≤ C }
    ensures bytes { text.new.bytes ≡ text.old.bytes ++ unback_text actor page epoch }
    ensures len { array_string_len text.new ≤ array_string_len text.old + 128 }
{
    push_number(text, actor);
    push_field(text, " unback page ", page);
    push_field(text, " epoch ", epoch);
    text.push_str("\n");
}

/// Adds the line of a block that was given.
fn push_give<const C: usize>(text: &mut ArrayString<C>, actor: u8, block: Block)
    requires { array_string_len text.old + 128 ≤ C }
    ensures bytes { text.new.bytes ≡ text.old.bytes ++ give_text actor block }
    ensures len { array_string_len text.new ≤ array_string_len text.old + 128 }
{
    push_number(text, actor);
    text.push_str(" give");
    push_name(text, block.name);
    push_field(text, " room ", block.room);
    push_field(text, " heap ", block.heap);
    text.push_str("\n");
}

/// Adds the line of a block that ended.
fn push_freed<const C: usize>(text: &mut ArrayString<C>, actor: u8, name: Name, epoch: u64)
    requires { array_string_len text.old + 128 ≤ C }
    ensures bytes { text.new.bytes ≡ text.old.bytes ++ freed_text actor name epoch }
    ensures len { array_string_len text.new ≤ array_string_len text.old + 128 }
{
    push_number(text, actor);
    text.push_str(" freed");
    push_name(text, name);
    push_field(text, " epoch ", epoch);
    text.push_str("\n");
}

/// Adds the line of a block whose end was refused, for a cause in at most 32 bytes.
fn push_refused<const C: usize>(text: &mut ArrayString<C>, actor: u8, cause: &str, block: Name)
    requires short { length cause.now ≤ 32 }
    requires room { array_string_len text.old + 128 ≤ C }
    ensures bytes { text.new.bytes ≡ text.old.bytes ++ refused_text actor cause.now block }
    ensures len { array_string_len text.new ≤ array_string_len text.old + 128 }
{
    push_number(text, actor);
    text.push_str(cause);
    push_name(text, block);
    text.push_str("\n");
}

/// Adds the line of a block whose end named another room than it has.
fn push_size_differs<const C: usize>(text: &mut ArrayString<C>, actor: u8, name: Name, room: u32)
    requires { array_string_len text.old + 128 ≤ C }
    ensures bytes { text.new.bytes ≡ text.old.bytes ++ size_differs_text actor name room }
    ensures len { array_string_len text.new ≤ array_string_len text.old + 128 }
{
    push_number(text, actor);
    text.push_str(" size-differs");
    push_name(text, name);
    push_field(text, " asked ", room);
    text.push_str("\n");
}

/// Adds the line of a block that is kept.
fn push_kept<const C: usize>(text: &mut ArrayString<C>, actor: u8, block: Name, name: u32)
    requires { array_string_len text.old + 128 ≤ C }
    ensures bytes { text.new.bytes ≡ text.old.bytes ++ kept_text actor block name }
    ensures len { array_string_len text.new ≤ array_string_len text.old + 128 }
{
    push_number(text, actor);
    text.push_str(" kept");
    push_name(text, block);
    push_field(text, " name ", name);
    text.push_str("\n");
}

/// Adds the line of words of at most 32 bytes and a number.
fn push_numbered<const C: usize>(text: &mut ArrayString<C>, actor: u8, words: &str, number: u64)
    requires short { length words.now ≤ 32 }
    requires room { array_string_len text.old + 128 ≤ C }
    ensures bytes { text.new.bytes ≡ text.old.bytes ++ numbered_text actor words.now number }
    ensures len { array_string_len text.new ≤ array_string_len text.old + 128 }
{
    push_number(text, actor);
    push_field(text, words, number);
    text.push_str("\n");
}

/// Adds the line of a page in other hands.
fn push_held<const C: usize>(text: &mut ArrayString<C>, actor: u8, page: u32, name: u32)
    requires { array_string_len text.old + 128 ≤ C }
    ensures bytes { text.new.bytes ≡ text.old.bytes ++ held_text actor page name }
    ensures len { array_string_len text.new ≤ array_string_len text.old + 128 }
{
    push_number(text, actor);
    push_field(text, " held ", page);
    push_field(text, " name ", name);
    text.push_str("\n");
}

/// Adds the line of a guard that went up.
fn push_guarded<const C: usize>(
    text: &mut ArrayString<C>,
    actor: u8,
    low: u32,
    high: u32,
    name: u32,
)
    requires { array_string_len text.old + 128 ≤ C }
    ensures bytes { text.new.bytes ≡ text.old.bytes ++ guarded_text actor low high name }
    ensures len { array_string_len text.new ≤ array_string_len text.old + 128 }
{
    push_number(text, actor);
    push_field(text, " guarded ", low);
    push_field(text, " ", high);
    push_field(text, " name ", name);
    text.push_str("\n");
}

/// Adds the line of a guard that was lowered.
fn push_lowered<const C: usize>(text: &mut ArrayString<C>, actor: u8, low: u32, high: u32)
    requires { array_string_len text.old + 128 ≤ C }
    ensures bytes { text.new.bytes ≡ text.old.bytes ++ lowered_text actor low high }
    ensures len { array_string_len text.new ≤ array_string_len text.old + 128 }
{
    push_number(text, actor);
    push_field(text, " lowered ", low);
    push_field(text, " ", high);
    text.push_str("\n");
}

/// Adds the line of a page that isn't empty for long enough.
fn push_young<const C: usize>(text: &mut ArrayString<C>, actor: u8, page: u32, stamp: u64)
    requires { array_string_len text.old + 128 ≤ C }
    ensures bytes { text.new.bytes ≡ text.old.bytes ++ young_text actor page stamp }
    ensures len { array_string_len text.new ≤ array_string_len text.old + 128 }
{
    push_number(text, actor);
    push_field(text, " young page ", page);
    push_field(text, " stamp ", stamp);
    text.push_str("\n");
}

/// Adds the line of a page with grains that aren't free.
fn push_in_use<const C: usize>(
    text: &mut ArrayString<C>,
    actor: u8,
    page: u32,
    word: u8,
    value: u64,
)
    requires { array_string_len text.old + 128 ≤ C }
    ensures bytes { text.new.bytes ≡ text.old.bytes ++ in_use_text actor page word value }
    ensures len { array_string_len text.new ≤ array_string_len text.old + 128 }
{
    push_number(text, actor);
    push_field(text, " in-use page ", page);
    push_field(text, " word ", word);
    text.push_str(" value 0x");
    push_hex(text, value, 16);
    text.push_str("\n");
}
