//! Lines at the end of a text that has room for them.
ghost use Rattle.std.specs.Prelude.{◌≡◌, ◌+◌, ◌++◌, length};
ghost use Rattle.pas_generate.specs.Lines.{HasRoom, Keeps, allocation_line, free_line, header, line_of, tick_line};

use crate::operation::{Operation, Request};
use itoa::{Buffer, Integer};

/// Room for the first two lines.
pub(crate) const HEADER_BYTES: usize = 64;

/// Room for the lines of an operation.
pub(crate) const LINE_BYTES: usize = 32;

/// Adds these bytes, for which there is room: no memory is taken.
#[inline]
fn push_words(text: &mut Vec<u8>, words: &str)
    requires { HasRoom (length words.now) text.old }
    ensures bytes { text.new.items ≡ text.old.items ++ words.now }
    ensures keeps { Keeps (length words.now) text.old text.new }
{
    let _ = text.extend_from_slice(words.as_bytes());
}

/// Adds these words and a number, in decimal.
#[inline]
fn push_field<I: Integer>(text: &mut Vec<u8>, words: &str, n: I)
    requires { HasRoom (length words.now + I.MAX_STR_LEN) text.old }
    ensures bytes { text.new.items ≡ text.old.items ++ (words.now ++ I.text n) }
    ensures keeps { Keeps (length words.now + I.MAX_STR_LEN) text.old text.new }
{
    push_words(text, words);
    push_words(text, Buffer::new().format(n));
}

/// Adds the first two lines of a trace.
#[tactic(auto, unfolding(crate::specs::Lines::header))]
pub(crate) fn push_header(text: &mut Vec<u8>, pages: u32, threads: u8)
    requires { HasRoom HEADER_BYTES text.old }
    ensures bytes { text.new.items ≡ text.old.items ++ header pages threads }
    ensures keeps { Keeps HEADER_BYTES text.old text.new }
{
    push_field(text, "pas 1 pages ", pages);
    push_field(text, " threads ", threads);
    push_words(text, " heaps 6 age 2\nshared 5\n");
}

/// Adds the lines of an operation.
pub(crate) fn push_operation(text: &mut Vec<u8>, operation: Operation)
    requires { HasRoom LINE_BYTES text.old }
    ensures bytes { text.new.items ≡ text.old.items ++ line_of operation }
    ensures keeps { Keeps LINE_BYTES text.old text.new }
{
    match operation {
        Operation::Allocate {
            thread,
            name,
            request,
        } => push_allocation(text, thread, name, request),
        Operation::Free { thread, name } => push_free(text, thread, name),
        Operation::Tick { epoch } => push_tick(text, epoch),
        Operation::Pass => push_words(text, "pass\nphase\n"),
    }
}

/// Adds the line of an allocation.
fn push_allocation(text: &mut Vec<u8>, thread: u8, name: u32, request: Request)
    requires { HasRoom LINE_BYTES text.old }
    ensures bytes { text.new.items ≡ text.old.items ++ allocation_line thread name request }
    ensures keeps { Keeps LINE_BYTES text.old text.new }
{
    push_field(text, "a ", thread);
    push_field(text, " ", name);
    push_field(text, " ", request.heap);
    push_field(text, " ", request.size);
    push_field(text, " ", request.align);
    push_words(text, "\n");
}

/// Adds the line of a free.
fn push_free(text: &mut Vec<u8>, thread: u8, name: u32)
    requires { HasRoom LINE_BYTES text.old }
    ensures bytes { text.new.items ≡ text.old.items ++ free_line thread name }
    ensures keeps { Keeps LINE_BYTES text.old text.new }
{
    push_field(text, "f ", thread);
    push_field(text, " ", name);
    push_words(text, "\n");
}

/// Adds the line of a tick.
fn push_tick(text: &mut Vec<u8>, epoch: u32)
    requires { HasRoom LINE_BYTES text.old }
    ensures bytes { text.new.items ≡ text.old.items ++ tick_line epoch }
    ensures keeps { Keeps LINE_BYTES text.old text.new }
{
    push_field(text, "tick ", epoch);
    push_words(text, "\n");
}
