//! From a line to what it says.
ghost use Rattle.std.specs.Prelude.{◌≡◌, Some, None, MatchResult};
ghost use Rattle.pas_trace.specs.Items.{plain, trace_name, epoch_word, turn_word, since, has_since, item_of_one, item_of_two, item_of_three, item_of_four};
ghost use Rattle.pas_trace.specs.{Items.{item5, item_of_five, item_of_six, item_by_count, item_of_words, item_of_line}, Numbers.address_of_word};
ghost use Rattle.pas_trace.specs.{Texts.words_of, declared.item.{Item.TheVariants.Operates, Wish.TheVariants.{Asks, FreesRawSized, Remakes}}};

use crate::fault::Reason;
use crate::item::{Item, Wish};
use crate::numbers::{address, number};
use crate::plan::Chore;
use crate::words::{is_word, next_word};

/// The greatest trace name.
pub const MOST_NAME: u64 = 1_000_000;

/// Epochs, turns and the arguments of idle lines are below this.
const EPOCHS: u64 = 1 << 40;

/// The number that a place holds.
#[inline]
fn number_at(word: &[u8]) -> Result<u64, Reason>
    ensures { MatchResult result (λ n. plain word.now ≡ Some n) (λ r. (plain word.now ≡ None) × (r ≡ Reason.BadNumber)) }
{
    number(word).ok_or(Reason::BadNumber)
}

/// The trace name that a place holds, from 1 to 1,000,000.
#[inline]
fn name_at(word: &[u8]) -> Result<u32, Reason>
    ensures { MatchResult result (λ n. trace_name word.now ≡ Some n) (λ r. (trace_name word.now ≡ None) × (r ≡ Reason.BadNumber)) }
{
    match number(word) {
        Some(value) if value >= 1 && value <= MOST_NAME => Ok(value as u32),
        _ => Err(Reason::BadNumber),
    }
}

/// The epoch that a place holds, below 2^40.
#[inline]
fn epoch_at(word: &[u8]) -> Result<u64, Reason>
    ensures { MatchResult result (λ n. epoch_word word.now ≡ Some n) (λ r. (epoch_word word.now ≡ None) × (r ≡ Reason.BadNumber)) }
{
    match number(word) {
        Some(value) if value < EPOCHS => Ok(value),
        _ => Err(Reason::BadNumber),
    }
}

/// The turn that a place holds, below 2^40 - 1.
#[inline]
fn turn_at(word: &[u8]) -> Result<u64, Reason>
    ensures { MatchResult result (λ n. turn_word word.now ≡ Some n) (λ r. (turn_word word.now ≡ None) × (r ≡ Reason.BadNumber)) }
{
    match number(word) {
        Some(value) if value < EPOCHS - 1 => Ok(value),
        _ => Err(Reason::BadNumber),
    }
}

/// The address that a place holds.
fn address_at(word: &[u8]) -> Result<u32, Reason>
    ensures { MatchResult result (λ n. address_of_word word.now ≡ Some n) (λ r. (address_of_word word.now ≡ None) × (r ≡ Reason.BadNumber)) }
{
    match address(word) {
        Some(value) => Ok(value as u32),
        None => Err(Reason::BadNumber),
    }
}

/// What a line of one word says.
fn item_of_one_word(word: &[u8]) -> Result<Item, Reason>
    ensures { result ≡ item_of_one word.now }
{
    if is_word(word, b"pass") {
        Ok(Item::Scavenges(Chore::Pass))
    } else if is_word(word, b"phase") {
        Ok(Item::NextPhase)
    } else {
        Err(Reason::BadWord)
    }
}

/// What a line of two words says. A `shared` line may not follow an operation or a `phase` line.
fn item_of_two_words(started: bool, word: &[u8], a: &[u8]) -> Result<Item, Reason>
    ensures { result ≡ item_of_two started word.now a.now }
{
    if is_word(word, b"shared") {
        if started {
            return Err(Reason::BadWord);
        }
        Ok(Item::Shares(number_at(a)?))
    } else if is_word(word, b"flush") {
        Ok(Item::Operates {
            thread: number_at(a)?,
            wish: Wish::Flushes,
        })
    } else if is_word(word, b"stop") {
        Ok(Item::Operates {
            thread: number_at(a)?,
            wish: Wish::Stops,
        })
    } else if is_word(word, b"tick") {
        Ok(Item::Scavenges(Chore::Tick(epoch_at(a)?)))
    } else if is_word(word, b"idle") {
        Ok(Item::Scavenges(Chore::Idle(epoch_at(a)?)))
    } else if is_word(word, b"guard") {
        Ok(Item::Guards(number(a)))
    } else {
        Err(Reason::BadWord)
    }
}

/// What a line of three words says.
#[inline]
fn item_of_three_words(word: &[u8], a: &[u8], b: &[u8]) -> Result<Item, Reason>
    ensures { result ≡ item_of_three word.now a.now b.now }
{
    if !is_word(word, b"f") {
        return Err(Reason::BadWord);
    }
    let thread = number_at(a)?;
    let name = name_at(b)?;
    let wish = Wish::Frees { name };
    Ok(Item::Operates { thread, wish })
}

/// What a line of four words says.
fn item_of_four_words(word: &[u8], a: &[u8], b: &[u8], c: &[u8]) -> Result<Item, Reason>
    ensures { result ≡ item_of_four word.now a.now b.now c.now }
{
    if !is_word(word, b"r") {
        return Err(Reason::BadWord);
    }
    let thread = number_at(a)?;
    let address = address_at(b)?;
    let turn = turn_at(c)?;
    let wish = Wish::FreesRaw { address, turn };
    Ok(Item::Operates { thread, wish })
}

/// What a line of five words says.
fn item_of_five_words(word: &[u8], a: &[u8], b: &[u8], c: &[u8], d: &[u8]) -> Result<Item, Reason>
    ensures { result ≡ item_of_five word.now a.now b.now c.now d.now }
{
    if !is_word(word, b"fs") {
        return Err(Reason::BadWord);
    }
    let thread = number_at(a)?;
    let name = name_at(b)?;
    let size = number_at(c)?;
    let align = number_at(d)?;
    let wish = Wish::FreesSized { name, size, align };
    Ok(Item::Operates { thread, wish })
}

/// What a line says that begins with `a`, by the five words behind it.
#[inline]
fn item_of_request(a: &[u8], b: &[u8], c: &[u8], d: &[u8], e: &[u8]) -> Result<Item, Reason>
    ensures { result ≡ item5 (λ t n h s a. Operates t (Asks n h s a)) (plain a.now) (trace_name b.now) (plain c.now) (plain d.now) (plain e.now) }
{
    let thread = number_at(a)?;
    let name = name_at(b)?;
    let heap = number_at(c)?;
    let size = number_at(d)?;
    let align = number_at(e)?;
    let wish = Wish::Asks {
        name,
        heap,
        size,
        align,
    };
    Ok(Item::Operates { thread, wish })
}

/// .. that begins with `rs`.
fn item_of_sized_raw(a: &[u8], b: &[u8], c: &[u8], d: &[u8], e: &[u8]) -> Result<Item, Reason>
    ensures { result ≡ item5 (λ t b n s a. Operates t (FreesRawSized b n s a)) (plain a.now) (address_of_word b.now) (turn_word c.now) (plain d.now) (plain e.now) }
{
    let thread = number_at(a)?;
    let address = address_at(b)?;
    let turn = turn_at(c)?;
    let size = number_at(d)?;
    let align = number_at(e)?;
    let wish = Wish::FreesRawSized {
        address,
        turn,
        size,
        align,
    };
    Ok(Item::Operates { thread, wish })
}

/// .. that begins with `m`.
fn item_of_remake(a: &[u8], b: &[u8], c: &[u8], d: &[u8], e: &[u8]) -> Result<Item, Reason>
    ensures { result ≡ item5 (λ t n o s a. Operates t (Remakes n o s a)) (plain a.now) (trace_name b.now) (trace_name c.now) (plain d.now) (plain e.now) }
{
    let thread = number_at(a)?;
    let name = name_at(b)?;
    let old = name_at(c)?;
    let size = number_at(d)?;
    let align = number_at(e)?;
    let wish = Wish::Remakes {
        name,
        old,
        size,
        align,
    };
    Ok(Item::Operates { thread, wish })
}

/// What a line of six words says.
#[inline]
fn item_of_six_words(
    word: &[u8],
    a: &[u8],
    b: &[u8],
    c: &[u8],
    d: &[u8],
    e: &[u8],
) -> Result<Item, Reason>
    ensures { result ≡ item_of_six word.now a.now b.now c.now d.now e.now }
{
    if is_word(word, b"a") {
        item_of_request(a, b, c, d, e)
    } else if is_word(word, b"rs") {
        item_of_sized_raw(a, b, c, d, e)
    } else if is_word(word, b"m") {
        item_of_remake(a, b, c, d, e)
    } else {
        Err(Reason::BadWord)
    }
}

/// Whether the word begins lines of this version, if it begins lines of any.
#[inline]
fn has_word(version: u8, word: &[u8]) -> bool
    ensures { result ≡ has_since version (since word.now) }
{
    if is_word(word, b"fs") || is_word(word, b"rs") {
        version >= 2
    } else if is_word(word, b"m") || is_word(word, b"guard") {
        version >= 4
    } else {
        true
    }
}

/// What the words of a line say of which this is the first: their number and the first of them choose the kind.
#[inline]
fn item_by_count(started: bool, word: &[u8], rest: &[u8]) -> Result<Item, Reason>
    ensures { result ≡ item_by_count started word.now (words_of rest.now) }
{
    let Some((a, rest)) = next_word(rest) else {
        return item_of_one_word(word);
    };
    let Some((b, rest)) = next_word(rest) else {
        return item_of_two_words(started, word, a);
    };
    let Some((c, rest)) = next_word(rest) else {
        return item_of_three_words(word, a, b);
    };
    let Some((d, rest)) = next_word(rest) else {
        return item_of_four_words(word, a, b, c);
    };
    let Some((e, rest)) = next_word(rest) else {
        return item_of_five_words(word, a, b, c, d);
    };
    match next_word(rest) {
        None => item_of_six_words(word, a, b, c, d, e),
        Some(_) => Err(Reason::BadWord),
    }
}

/// What the words of a line of this version say.
#[inline]
fn item_of_words(version: u8, started: bool, line: &[u8]) -> Result<Item, Reason>
    ensures { result ≡ item_of_words version started (words_of line.now) }
{
    let Some((word, rest)) = next_word(line) else {
        return Ok(Item::Blank);
    };
    if !has_word(version, word) {
        return Err(Reason::BadWord);
    }
    item_by_count(started, word, rest)
}

/// What a line from the second on of a text of this version says, or BadWord or BadNumber. `started` says that an operation or a `phase`
/// line stands before. One pass.
#[inline]
pub(crate) fn read_item(version: u8, started: bool, line: &[u8]) -> Result<Item, Reason>
    ensures { result ≡ item_of_line version started line.now }
{
    if !line.is_empty() && line[0] == b'#' {
        return Ok(Item::Blank);
    }
    item_of_words(version, started, line)
}
