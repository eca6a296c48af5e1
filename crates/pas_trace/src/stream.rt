//! Reading a trace for its script while its bytes come.
ghost use Rattle.std.specs.Prelude.{◌≡◌, ◌≢◌, ◌≤◌, ◌<◌, ◌+◌, ◌^◌, ◌++◌, ℕ, List, [], length, take};
ghost use Rattle.pas_trace.specs.{Texts.{lines_of, IsWhole}, Told.Tells, Scripts.IsScripting, Streams.{HasReadText, AreLinesOf, HasTaken, AreLinesAfter}};
ghost use Rattle.pas_trace.specs.{Streams.TakesLines, declared.item.Item.Item};
ghost use Rattle.pas_trace.specs.declared.stream.Lines.TheVariants as Lines;

use crate::fault::ReadFault;
use crate::gathered::Gathered;
use crate::reader::{Reader, begun, read_script};
use crate::script::Script;
use std::alloc::Global;

/// What the whole lines so far come to.
#[derive(Drop)]
pub enum Lines {
    /// There is none yet.
    Unread(Global),
    Read(Reader),
    /// One of them has the first fault of the text, whatever follows; or memory was wanting.
    Faulty(ReadFault),
}

/// How many bytes there are up to the end of the last line that has its line end.
fn whole_lines(text: &[u8]) -> usize
    ensures within { result ≤ length text.now }
    ensures whole { IsWhole (take result text.now) }
    ensures some { 0 < result → lines_of (take result text.now) ≢ [] }
{
    let mut end = text.len();
    while end > 0 {
        if text[end - 1] == b'\n' {
            return end;
        }
        end -= 1;
    }
    0
}

/// The lines of a text after those that the reader has read.
fn lines_after(mut reader: Reader, text: &[u8]) -> Lines
    requires tells { (items : List Item) × Tells reader items }
    requires size { reader.line + length text.now ≤ 2 ^ 24 + 1 }
    ensures { AreLinesAfter reader text.now result }
{
    match reader.read_lines(text) {
        Ok(()) => Lines::Read(reader),
        Err(fault) => Lines::Faulty(fault),
    }
}

/// The lines of the front of a text, the first of which is to be the header.
fn first_lines(alloc: Global, text: &[u8]) -> Lines
    requires size { length text.now ≤ 16777216 }
    requires whole { IsWhole text.now }
    requires some { lines_of text.now ≢ [] }
    ensures { AreLinesOf text.now result }
{
    match begun(alloc, text, Gathered::for_script(alloc)) {
        Ok((reader, rest)) => lines_after(reader, rest),
        Err(fault) => Lines::Faulty(fault),
    }
}

/// Takes the whole lines of the first bytes, where there are some.
fn begin(alloc: Global, text: &[u8]) -> (ScriptReader, usize)
    requires { length text.now ≤ 16777216 }
    ensures { TakesLines (Lines.Unread alloc) text.now result.0.lines result.1 }
{
    let count = whole_lines(text);
    if count == 0 {
        return (ScriptReader::new(alloc), 0);
    }
    let lines = first_lines(alloc, &text[..count]);
    (ScriptReader { lines }, count)
}

/// Takes the whole lines of the next bytes.
fn go_on(reader: Reader, text: &[u8]) -> (ScriptReader, usize)
    requires { (before : List ℕ) × HasReadText before reader × (length before + length text.now ≤ 16777216) }
    ensures { TakesLines (Lines.Read reader) text.now result.0.lines result.1 }
{
    let count = whole_lines(text);
    let lines = lines_after(reader, &text[..count]);
    (ScriptReader { lines }, count)
}

/// The script of a text of which the reader has read all but this rest.
fn script_of(mut reader: Reader, rest: &[u8]) -> Result<Script, ReadFault>
    requires { (before : List ℕ) × HasReadText before reader × (length before + length rest.now ≤ 16777216) }
    ensures { (before : List ℕ) → HasReadText before reader → IsScripting (before ++ rest.now) result }
{
    reader.read_lines(rest)?;
    reader.scripted()
}

/// A reader of the script of a text whose bytes come piece by piece.
#[derive(Drop)]
pub struct ScriptReader {
    lines: Lines,
}

impl ScriptReader {
    /// A reader that has taken no byte.
    pub fn new(alloc: Global) -> ScriptReader
        ensures none { HasTaken [] result }
        ensures unread { result.lines ≡ Lines.Unread alloc }
    {
        ScriptReader {
            lines: Lines::Unread(alloc),
        }
    }

    /// Takes the whole lines at the front of the bytes that come next, and answers how many bytes these are. Behind a fault, and where memory was wanting, it takes
    /// all and keeps nothing of them.
    pub fn take(self, text: &[u8]) -> (ScriptReader, usize)
        requires { (before : List ℕ) × HasTaken before self × (length before + length text.now ≤ 16777216) }
        ensures { TakesLines self.lines text.now result.0.lines result.1 }
    {
        match self.lines {
            Lines::Unread(alloc) => begin(alloc, text),
            Lines::Read(reader) => go_on(reader, text),
            Lines::Faulty(fault) => {
                let lines = Lines::Faulty(fault);
                (ScriptReader { lines }, text.len())
            }
        }
    }

    /// What `read_script` answers of the whole text, of which these bytes are the rest.
    pub fn finish(self, rest: &[u8]) -> Result<Script, ReadFault>
        requires { (before : List ℕ) × HasTaken before self × (length before + length rest.now ≤ 16777216) }
        ensures { (before : List ℕ) → HasTaken before self → IsScripting (before ++ rest.now) result }
    {
        match self.lines {
            Lines::Unread(alloc) => read_script(alloc, rest),
            Lines::Read(reader) => script_of(reader, rest),
            Lines::Faulty(fault) => Err(fault),
        }
    }
}
