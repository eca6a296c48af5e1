//! Lines of which no word is open: what stands before fixes them.
ghost use Rattle.std.specs.Prelude.{◌≡◌, ◌+◌, ◌≤◌, length};
ghost use Rattle.pas_records.specs.Lines.{CanShow, line_of};
ghost use Rattle.pas_check.specs.{Leading.{IsJustLine, IsLineLed, IsWithin, StaysWithin}, States.{Heads, Writes}};

use crate::cutting::{Cursor, take_line};
use pas_records::{Line, Record, push_record};

/// Takes the next line, and says whether it is the record's, which is made where it is compared.
fn is_next(text: &[u8], cursor: &mut Cursor, item: &Record) -> bool
    requires within { IsWithin text.now cursor.old }
    requires shown { CanShow item.now }
    ensures taken { IsJustLine text.now cursor.old cursor.new (line_of item.now) result }
    ensures within { StaysWithin text.now cursor.new result }
    ensures count { cursor.new.lines ≡ cursor.old.lines + 1 }
{
    let mut wanted = Line::new();
    push_record(&mut wanted, item);
    take_line(text, cursor, wanted.as_bytes())
}

/// Takes the next line where it is just the record's, and says whether it is. After false the cursor has counted the line that isn't, or that is wanting.
pub(crate) fn take_record(text: &[u8], cursor: &mut Cursor, item: &Record) -> bool
    requires within { IsWithin text.now cursor.old }
    requires shown { CanShow item.now }
    ensures led { IsLineLed text.now cursor.old cursor.new (Writes item.now) result }
    ensures within { StaysWithin text.now cursor.new result }
{
    is_next(text, cursor, item)
}

/// Takes the head of the report, and says whether it is the next line.
pub(crate) fn take_head(text: &[u8], cursor: &mut Cursor) -> bool
    requires within { IsWithin text.now cursor.old }
    ensures led { IsLineLed text.now cursor.old cursor.new Heads result }
    ensures within { StaysWithin text.now cursor.new result }
{
    take_line(text, cursor, b"report\n")
}
