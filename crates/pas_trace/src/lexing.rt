//! Lines that are taken apart before those in front of them are read.
ghost use Rattle.std.specs.Prelude.{IfSome};
ghost use Rattle.pas_trace.specs.{FirstLines.FirstSays, Lexed.AreLexed};

use crate::fronts::front_item;
use crate::item::Item;
use crate::items::read_item;
use crate::lines::next_line;

/// What the first line of a text of this version says, whatever stands before it, and the text after it. None where there is no line, or it
/// has a fault, or it may only stand before the first operation.
#[inline(always)]
fn first_item(version: u8, text: &[u8]) -> Option<(Item, &[u8])>
    ensures { IfSome result (λ p. FirstSays version text.now p.0 p.1.now) }
{
    if let Some(found) = front_item(text) {
        return Some(found);
    }
    let (line, rest) = next_line(text)?;
    match read_item(version, true, line) {
        Ok(item) => Some((item, rest)),
        Err(_) => None,
    }
}

/// Fills the place with what the lines of a text of this version say, and answers the text that is left: from the first line on that says nothing by itself,
/// or that the place has no room for. One pass.
pub(crate) fn lex<'a>(version: u8, text: &'a [u8], items: &mut Vec<Item>) -> &'a [u8]
    ensures { AreLexed version text.now items.new.items result.now }
{
    items.clear();
    let mut left = text;
    while items.len() < items.capacity() {
        let Some((item, after)) = first_item(version, left) else {
            return left;
        };
        items.push_reserved(item);
        left = after;
    }
    left
}
