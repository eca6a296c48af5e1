//! The words of a line, one after another.
ghost use Rattle.std.specs.Prelude.{◌≡◌, ◌≢◌, ◌∷◌, [], ◌<◌, ◌≤◌, ℕ, length, slice_index, MatchOption};
ghost use Rattle.pas_trace.specs.{Texts.words_of, Items.same_bytes};

use crate::pieces::piece_length;

/// The number of spaces that the bytes begin with.
#[inline]
fn leading_spaces(bytes: &[u8]) -> usize
    ensures within { result ≤ length bytes.now }
    ensures spaces { (k : ℕ) → k < result → slice_index bytes.now k ≡ 32 }
    ensures ended { result < length bytes.now → slice_index bytes.now result ≢ 32 }
{
    for (index, byte) in bytes.iter().enumerate() {
        if *byte != b' ' {
            return index;
        }
    }
    bytes.len()
}

/// The first word of a line and the bytes after it. None exactly where the line has no word.
#[inline]
pub(crate) fn next_word(line: &[u8]) -> Option<(&[u8], &[u8])>
    ensures { MatchOption result (words_of line.now ≡ []) (λ p. words_of line.now ≡ p.0.now ∷ words_of p.1.now) }
{
    let start = leading_spaces(line);
    if start == line.len() {
        return None;
    }
    let from_word = &line[start..];
    let length = piece_length(from_word, b' ');
    if length == from_word.len() {
        Some((from_word, &from_word[length..]))
    } else {
        Some((&from_word[..length], &from_word[length + 1..]))
    }
}

/// Whether two words are the same bytes.
#[inline]
pub(crate) fn is_word(word: &[u8], other: &[u8]) -> bool
    ensures { result ≡ same_bytes word.now other.now }
{
    word == other
}
