//! The lines of pages.
ghost use Rattle.std.specs.Prelude.{◌≡◌, ◌+◌, ◌≤◌, ◌++◌};
ghost use Rattle.arrayvec.specs.ArrayString.{array_string_len};
ghost use Rattle.pas_profile.specs.{Directories.IsKind, Profiles.IsPage};
ghost use Rattle.pas_profile.specs.declared.word.Word.TheVariants as Word;
ghost use Rattle.pas_steps.specs.States.{profile_of, word_in};
ghost use Rattle.pas_report.specs.{Counts.{IsDeedWord, free_counted_on, live_counted_on, marked_in, page_by_words}, Reports.page_text};
ghost use Rattle.pas_records.specs.Marks.{marks_of};

use crate::counts::{free_on, live_on};
use crate::marking::{Marks, names_of, page_marks};
use arrayvec::ArrayString;
use pas_profile::{Directory, Word, read_deed};
use pas_records::text::{Line, push_field, push_kind};
use pas_steps::State;

/// The line of a page whose deed word is 0 or a directory's of the profile; without a deed it is empty. It reads each word of the page
/// once, and takes no memory.
pub fn page_line(state: &State, page: u32) -> Line
    requires page { IsPage (profile_of state.now) page }
    requires deed { IsDeedWord (profile_of state.now) (word_in state.now (Word.Deed page)) }
    ensures { result.bytes ≡ page_by_words state.now page }
{
    let mut line = Line::new();
    push_page(&mut line, state, page);
    line
}

/// Adds the line of such a page, of at most 128 bytes.
pub(crate) fn push_page<const C: usize>(text: &mut ArrayString<C>, state: &State, page: u32)
    requires page { IsPage (profile_of state.now) page }
    requires deed { IsDeedWord (profile_of state.now) (word_in state.now (Word.Deed page)) }
    requires room { array_string_len text.old + 128 ≤ C }
    ensures { text.new.bytes ≡ text.old.bytes ++ page_by_words state.now page }
{
    if let Some(directory) = read_deed(state.word(Word::Deed(page))) {
        push_deed_page(text, state, page, directory);
    }
}

/// Adds the line of a page of this directory.
fn push_deed_page<const C: usize>(
    text: &mut ArrayString<C>,
    state: &State,
    page: u32,
    directory: Directory,
)
    requires page { IsPage (profile_of state.now) page }
    requires deed { IsDeedWord (profile_of state.now) (word_in state.now (Word.Deed page)) }
    requires kind { IsKind directory.kind }
    requires room { array_string_len text.old + 128 ≤ C }
    ensures { text.new.bytes ≡ text.old.bytes ++ page_text page directory (live_counted_on state.now page) (free_counted_on state.now page) (word_in state.now (Word.Stamp page)) (marked_in state.now page) }
{
    let live = live_on(state, page);
    let free = free_on(state, page);
    let stamp = state.word(Word::Stamp(page));
    let marks = page_marks(state, page);
    push_shown_page(text, page, directory, live, free, stamp, marks);
}

/// The line of a page with this directory, so many live blocks and free grains, this stamp and these marks.
pub fn shown_page(
    page: u32,
    directory: Directory,
    live: u16,
    free: u16,
    stamp: u64,
    marks: Marks,
) -> Line
    requires { IsKind directory.kind }
    ensures { result.bytes ≡ page_text page directory live free stamp (marks_of marks.0) }
{
    let mut line = Line::new();
    push_shown_page(&mut line, page, directory, live, free, stamp, marks);
    line
}

/// Adds the line of such a page, of at most 128 bytes.
fn push_shown_page<const C: usize>(
    text: &mut ArrayString<C>,
    page: u32,
    directory: Directory,
    live: u16,
    free: u16,
    stamp: u64,
    marks: Marks,
)
    requires kind { IsKind directory.kind }
    requires room { array_string_len text.old + 128 ≤ C }
    ensures { text.new.bytes ≡ text.old.bytes ++ page_text page directory live free stamp (marks_of marks.0) }
{
    push_field(text, "page ", page);
    push_field(text, " heap ", directory.heap);
    text.push_str(" ");
    push_kind(text, directory.kind);
    push_field(text, " live ", live);
    push_field(text, " free ", free);
    push_field(text, " stamp ", stamp);
    text.push_str(" marks ");
    text.push_str(names_of(marks));
    text.push_str("\n");
}
