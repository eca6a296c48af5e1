//! The two commonest lines, read in one pass from the front of a text.
ghost use Rattle.std.specs.Prelude.{◌≡◌, ◌≤◌, ◌<◌, ◌^◌, ◌++◌, ℕ, IfSome, true, length, take, codes};
ghost use Rattle.pas_trace.specs.{FirstLines.{BeginsWith, FirstSays}, Numbers.{all_digits, value_from}};

use crate::item::{Item, Wish};
use crate::items::MOST_NAME;

/// The most digits that are read here: no value of so many overflows.
const MOST_DIGITS: usize = 18;

/// The value of the decimal digits at the front of a text, up to 18 of them, and how many they are.
#[inline(always)]
fn value_of_front(text: &[u8]) -> (u64, usize)
    ensures within { result.1 ≤ length text.now }
    ensures digits { all_digits (take result.1 text.now) ≡ true }
    ensures value { result.0 ≡ value_from 0 (take result.1 text.now) }
    ensures small { result.0 < 10 ^ 18 }
{
    let most = text.len().min(MOST_DIGITS);
    let mut value: u64 = 0;
    let mut count = 0;
    while count < most && text[count] >= b'0' && text[count] <= b'9' {
        value = 10 * value + (text[count] - b'0') as u64;
        count += 1;
    }
    (value, count)
}

/// The digits of a number at the front of a text, up to 18 of them, and the text after the byte that ends it. None where no such number
/// stands there, or another byte follows.
#[inline(always)]
fn front_digits(text: &[u8], end: u8) -> Option<(u64, &[u8])>
    ensures { IfSome result (λ p. BeginsWith text.now p.0 end p.1.now) }
{
    let (value, count) = value_of_front(text);
    if count == text.len() || text[count] != end {
        return None;
    }
    if count == 0 || (count > 1 && text[0] == b'0') {
        return None;
    }
    Some((value, &text[count + 1..]))
}

/// The number of two digits at the front of a text, and the text after the byte that ends it.
#[inline(always)]
fn front_pair(text: &[u8], end: u8) -> Option<(u64, &[u8])>
    ensures { IfSome result (λ p. BeginsWith text.now p.0 end p.1.now) }
{
    if text.len() < 3 || text[2] != end {
        return None;
    }
    if text[0] < b'1' || text[0] > b'9' || text[1] < b'0' || text[1] > b'9' {
        return None;
    }
    let value = 10 * (text[0] - b'0') + (text[1] - b'0');
    Some((value as u64, &text[3..]))
}

/// The number at the front of a text and the text after the byte that ends it, as in `front_digits`. Many numbers have one
/// digit or two.
#[inline(always)]
fn front_number(text: &[u8], end: u8) -> Option<(u64, &[u8])>
    ensures { IfSome result (λ p. BeginsWith text.now p.0 end p.1.now) }
{
    if text.len() >= 2 && text[1] == end && text[0] >= b'0' && text[0] <= b'9' {
        return Some(((text[0] - b'0') as u64, &text[2..]));
    }
    match front_pair(text, end) {
        Some(found) => Some(found),
        None => front_digits(text, end),
    }
}

/// What a line `a T NAME H SIZE ALIGN` says, and the text after it, where this text follows its first two bytes.
#[inline(always)]
fn front_allocation(text: &[u8]) -> Option<(Item, &[u8])>
    ensures { IfSome result (λ p. (version : ℕ) → FirstSays version (codes "a " ++ text.now) p.0 p.1.now) }
{
    let (thread, after_thread) = front_number(text, b' ')?;
    let (name, after_name) = front_number(after_thread, b' ')?;
    let (heap, after_heap) = front_number(after_name, b' ')?;
    let (size, after_size) = front_number(after_heap, b' ')?;
    let (align, rest) = front_number(after_size, b'\n')?;
    if name < 1 || name > MOST_NAME {
        return None;
    }
    let wish = Wish::Asks {
        name: name as u32,
        heap,
        size,
        align,
    };
    Some((Item::Operates { thread, wish }, rest))
}

/// What a line `f T NAME` says, and the text after it, where this text follows its first two bytes.
#[inline(always)]
fn front_free(text: &[u8]) -> Option<(Item, &[u8])>
    ensures { IfSome result (λ p. (version : ℕ) → FirstSays version (codes "f " ++ text.now) p.0 p.1.now) }
{
    let (thread, after_thread) = front_number(text, b' ')?;
    let (name, rest) = front_number(after_thread, b'\n')?;
    if name < 1 || name > MOST_NAME {
        return None;
    }
    let wish = Wish::Frees { name: name as u32 };
    Some((Item::Operates { thread, wish }, rest))
}

/// What the first line of a text says, and the text after it. None for all lines but those that ask for a block, with
/// single spaces and numbers of up to 18 digits in range: where it answers, it answers the item of the line.
#[inline(always)]
pub(crate) fn allocation_line(text: &[u8]) -> Option<(Item, &[u8])>
    ensures { IfSome result (λ p. (version : ℕ) → FirstSays version text.now p.0 p.1.now) }
{
    if text.len() < 2 || text[0] != b'a' || text[1] != b' ' {
        return None;
    }
    front_allocation(&text[2..])
}

/// The same for those that free a block by its name.
#[inline(always)]
pub(crate) fn free_line(text: &[u8]) -> Option<(Item, &[u8])>
    ensures { IfSome result (λ p. (version : ℕ) → FirstSays version text.now p.0 p.1.now) }
{
    if text.len() < 2 || text[0] != b'f' || text[1] != b' ' {
        return None;
    }
    front_free(&text[2..])
}

/// The same for both.
#[inline(always)]
pub(crate) fn front_item(text: &[u8]) -> Option<(Item, &[u8])>
    ensures { IfSome result (λ p. (version : ℕ) → FirstSays version text.now p.0 p.1.now) }
{
    match allocation_line(text) {
        Some(found) => Some(found),
        None => free_line(text),
    }
}
