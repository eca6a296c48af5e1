//! The lines of a text, one after another.
ghost use Rattle.std.specs.Prelude.{◌≡◌, ◌∷◌, [], ◌<◌, length, MatchOption};
ghost use Rattle.pas_trace.specs.Texts.{lines_of};

use crate::pieces::piece_length;

/// The first line of a text, without its line end, and the text after it. None exactly where the text has no line.
#[inline]
pub(crate) fn next_line(text: &[u8]) -> Option<(&[u8], &[u8])>
    ensures { MatchOption result (lines_of text.now ≡ []) (λ p. (lines_of text.now ≡ p.0.now ∷ lines_of p.1.now) × (length p.1.now < length text.now)) }
{
    if text.is_empty() {
        return None;
    }
    let end = piece_length(text, b'\n');
    if end == text.len() {
        Some((text, &text[end..]))
    } else {
        Some((&text[..end], &text[end + 1..]))
    }
}
