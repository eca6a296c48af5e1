//! Reading a trace on two threads: one takes the lines of a piece apart while the other reads the piece before.
ghost use Rattle.std.specs.Prelude.{◌≡◌, ◌≤◌, ◌<◌, ◌+◌, ◌++◌, ◌^◌, ℕ, List, Ok, OnOk, length};
ghost use Rattle.pas_trace.specs.{Lexed.AreLexed, Plans.IsReading, Texts.lines_of, Told.{Tells, IsRead}, declared.item.Item.Item};

use crate::fault::ReadFault;
use crate::gathered::Gathered;
use crate::item::Item;
use crate::lexing::lex;
use crate::pieces::piece_length;
use crate::plan::Plan;
use crate::reader::{Reader, begun, read_trace};
use std::alloc::Global;
use std::mem::swap;
use std::thread::{Threads, join_mut};

/// A piece has so many bytes, and those up to the end of its last line. What its lines say fits into a processor's own cache, and they
/// take some ten times as long as a start of a thread.
const PIECE_BYTES: usize = 262_144;

/// The most lines of a piece that are taken apart ahead: at 11 bytes a line, all of them.
const PIECE_LINES: usize = 24_576;

/// The least bytes of a text that is read on two threads.
const LEAST_BYTES: usize = 2 * PIECE_BYTES;

/// A piece of whole lines at the front of a text, and the text after it. It looks at no byte but those of the piece's last line.
fn cut(text: &[u8]) -> (&[u8], &[u8])
    ensures lines { lines_of text.now ≡ lines_of result.0.now ++ lines_of result.1.now }
    ensures bytes { length result.0.now + length result.1.now ≡ length text.now }
    ensures some { 0 < length text.now → length result.1.now < length text.now }
{
    if text.len() <= PIECE_BYTES {
        return text.split_at(text.len());
    }
    let end = PIECE_BYTES + piece_length(&text[PIECE_BYTES..], b'\n');
    if end == text.len() {
        return text.split_at(text.len());
    }
    text.split_at(end + 1)
}

/// Reads a piece, of which these items were taken apart and this text is left, while another thread takes the next piece apart. It answers
/// also what is left of the next one.
fn take_and_lex<'a, R: Threads + Sync>(
    rt: &R,
    reader: &mut Reader,
    items: &[Item],
    left: &[u8],
    piece: &'a [u8],
    next: &mut Vec<Item>,
) -> (Result<(), ReadFault>, &'a [u8])
    requires tells { (told : List Item) × Tells reader.old told }
    requires lexed { (text : List ℕ) × AreLexed reader.old.header.version text items.now left.now × (reader.old.line + length text ≤ 2 ^ 24 + 1) }
    ensures read { (told : List Item) (text : List ℕ) → Tells reader.old told → AreLexed reader.old.header.version text items.now left.now → IsRead reader.old told text reader.new result.0 }
    ensures few { OnOk result.0 ((text : List ℕ) → AreLexed reader.old.header.version text items.now left.now → reader.new.line ≤ reader.old.line + length text) }
    ensures next { AreLexed reader.old.header.version piece.now next.new.items result.1.now }
{
    let version = reader.version();
    let mut take_apart = || -> &[u8]
        ensures { AreLexed version piece.entry.now next.exit.now.items result.now }
    { lex(version, piece, next) };
    let mut take = || -> Result<(), ReadFault>
        requires tells { (told : List Item) × Tells reader.now told }
        requires lexed { (text : List ℕ) × AreLexed reader.now.header.version text items.now left.now × (reader.now.line + length text ≤ 2 ^ 24 + 1) }
        ensures read { (told : List Item) (text : List ℕ) → Tells reader.entry.now told → AreLexed reader.entry.now.header.version text items.entry.now left.entry.now → IsRead reader.entry.now told text reader.exit.now result }
        ensures few { OnOk result ((text : List ℕ) → AreLexed reader.entry.now.header.version text items.entry.now left.entry.now → reader.exit.now.line ≤ reader.entry.now.line + length text) }
    { reader.take_lexed(items, left) };
    let (after, took) = join_mut(rt, &mut take_apart, &mut take);
    (took, after)
}

/// Reads the lines of a text, a piece at a time, with two places for what the lines of a piece say. Nothing of the first piece is taken
/// apart ahead.
fn read_pieces<R: Threads + Sync>(
    rt: &R,
    reader: &mut Reader,
    text: &[u8],
    full: &mut Vec<Item>,
    next: &mut Vec<Item>,
) -> Result<(), ReadFault>
    requires tells { (told : List Item) × Tells reader.old told }
    requires size { reader.old.line + length text.now ≤ 2 ^ 24 + 1 }
    ensures { (told : List Item) → Tells reader.old told → IsRead reader.old told text.now reader.new result }
{
    full.clear();
    let (first, mut rest) = cut(text);
    let mut left = first;
    while !rest.is_empty() {
        let (piece, after) = cut(rest);
        let (took, lexed) = take_and_lex(rt, reader, full, left, piece, next);
        took?;
        left = lexed;
        swap(full, next);
        rest = after;
    }
    reader.take_lexed(full, left)
}

/// What `read_trace` answers, in less time where the text has at least 512 KB: another thread takes the lines of each piece of 256 KB apart
/// while this one reads the piece before. One pass over the bytes, in linear time. It takes 2.4 MB more while it reads, and where they are
/// wanting it reads as `read_trace` does. Where no thread can be made, this one does all.
pub fn read_trace_on<R: Threads + Sync>(
    rt: &R,
    alloc: Global,
    text: &[u8],
) -> Result<Plan, ReadFault>
    requires { length text.now ≤ 16777216 }
    ensures { IsReading text.now result }
{
    if text.len() < LEAST_BYTES {
        return read_trace(alloc, text);
    }
    let (Ok(mut full), Ok(mut next)) = (
        Vec::with_capacity(alloc, PIECE_LINES),
        Vec::with_capacity(alloc, PIECE_LINES),
    ) else {
        return read_trace(alloc, text);
    };
    let (mut reader, rest) = begun(alloc, text, Gathered::for_plan(alloc))?;
    read_pieces(rt, &mut reader, rest, &mut full, &mut next)?;
    reader.planned()
}
