//! The lines of a transcript, one by one.
ghost use Rattle.std.specs.Prelude.{◌≡◌, ◌+◌, ◌<◌, ◌∷◌, [], take, drop, length, ◌≤◌, true, IfSome, IfNone};
ghost use Rattle.pas_check.specs.{Leading.{IsJustLine, IsWithin, lines_from}, Lines.{is_line, lines_in}};

use memchr::memchr;

/// How far a text is read: how many bytes and lines stand before this place.
#[derive(Clone, Copy, Drop)]
pub(crate) struct Cursor {
    pub bytes: usize,
    pub lines: u32,
}

impl Cursor {
    ghost use Rattle.pas_check.specs.Checks.{opening};

    /// Before the first line.
    pub(crate) fn first() -> Cursor
        ensures { result ≡ opening }
    {
        Cursor { bytes: 0, lines: 0 }
    }
}

/// How many bytes the first line of the text has, with its newline; a last line may lack it. None where the text is empty.
pub(crate) fn first_line(text: &[u8]) -> Option<usize>
    ensures some { IfSome result (λ n. (n ≤ length text.now) × (lines_in text.now ≡ take n text.now ∷ lines_in (drop n text.now))) }
    ensures front { IfSome result (λ n. 0 < n) }
    ensures none { IfNone result (lines_in text.now ≡ []) }
{
    if text.len() == 0 {
        return None;
    }
    match memchr(b'\n', text) {
        Some(place) => Some(place + 1),
        None => Some(text.len()),
    }
}

/// The line at the cursor, with its newline, behind which the cursor stands from then on. None at the end of the text; the wanting line is counted too.
pub(crate) fn next_line<'a>(text: &'a [u8], cursor: &mut Cursor) -> Option<&'a [u8]>
    requires within { IsWithin text.now cursor.old }
    ensures some { IfSome result (λ line. lines_from text.now cursor.old ≡ line.now ∷ lines_from text.now cursor.new) }
    ensures within { IfSome result (λ line. IsWithin text.now cursor.new) }
    ensures moves { IfSome result (λ line. cursor.old.bytes < cursor.new.bytes) }
    ensures none { IfNone result (lines_from text.now cursor.old ≡ []) }
    ensures count { cursor.new.lines ≡ cursor.old.lines + 1 }
{
    let rest = &text[cursor.bytes..];
    cursor.lines += 1;
    let Some(count) = first_line(rest) else {
        return None;
    };
    cursor.bytes += count;
    Some(&rest[..count])
}

/// Takes the next line, and says whether it is just this one. Its end isn't looked for: it is where the one that is wanted ends.
pub(crate) fn take_line(text: &[u8], cursor: &mut Cursor, wanted: &[u8]) -> bool
    requires within { IsWithin text.now cursor.old }
    requires line { is_line wanted.now ≡ true }
    ensures taken { IsJustLine text.now cursor.old cursor.new wanted.now result }
    ensures count { cursor.new.lines ≡ cursor.old.lines + 1 }
{
    cursor.lines += 1;
    if !text[cursor.bytes..].starts_with(wanted) {
        return false;
    }
    cursor.bytes += wanted.len();
    true
}
