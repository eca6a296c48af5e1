//! The report of a state, written to a sink.
ghost use Rattle.std.specs.Prelude.{◌≡◌, ◌≤◌, ◌+◌, ◌↔◌, IsTrue, OnOk, OnErr};
ghost use Rattle.pas_profile.specs.Profiles.{IsValid, IsDirectoryOf};
ghost use Rattle.pas_io.specs.Told.{Rose, Writes, WritesFront};
ghost use Rattle.pas_report.specs.Counts.{AreDeedWords, IsDeedWord, report_by_words};

use crate::pages::push_page;
use crate::totals::push_totals;
use pas_io::whole::write_all;
use pas_io::{Failed, Sink};
use pas_profile::{Directory, Kind, Profile, Word, read_deed};
use pas_records::Lines;
use pas_records::transcript::make_room;
use pas_steps::State;

/// Whether the directory is of the profile: of one of its heaps, and where it is of a class, of one of its classes.
fn is_of_profile(profile: &Profile, directory: Directory) -> bool
    requires { IsValid profile.now }
    ensures { IsTrue result ↔ IsDirectoryOf profile.now directory }
{
    let has_class = match directory.kind {
        Kind::Class(class) => class < profile.classes,
        _ => true,
    };
    directory.heap < profile.heaps && has_class
}

/// Whether a word is 0 or records a directory of the profile.
fn is_deed_word(profile: &Profile, word: u64) -> bool
    requires { IsValid profile.now }
    ensures { IsTrue result ↔ IsDeedWord profile.now word }
{
    match read_deed(word) {
        Some(directory) => is_of_profile(profile, directory),
        None => word == 0,
    }
}

/// Whether the deed word of each page is 0 or a directory's of the profile, as `report` wants it.
pub fn has_deed_words(state: &State) -> bool
    ensures { IsTrue result ↔ AreDeedWords state.now }
{
    for page in 1..state.profile().pages + 1 {
        if !is_deed_word(state.profile(), state.word(Word::Deed(page))) {
            return false;
        }
    }
    true
}

/// Writes the report: a line for each page with a deed, in order, and the line of the totals. The deed word of each page must be 0 or a
/// directory's of the profile. It reads each word of the region at most twice, takes no memory, and writes some 64 KB at a time. After a
/// failure some first part of the report was written.
pub fn report<K: Sink>(state: &State, sink: &mut K) -> Result<(), Failed>
    requires { AreDeedWords state.now }
    ensures whole { OnOk result (Writes (K.held sink.old) (K.held sink.new) (report_by_words state.now)) }
    ensures front { OnErr result (WritesFront (K.held sink.old) (K.held sink.new) (report_by_words state.now)) }
    ensures sound { OnOk result (K.faults sink.new ≡ K.faults sink.old) }
    ensures failed { OnErr result (Rose (K.faults sink.old) (K.faults sink.new)) }
    ensures count { K.faults sink.old ≤ K.faults sink.new }
{
    let mut lines = Lines::new();
    lines.push_str("report\n");
    for page in 1..state.profile().pages + 1 {
        make_room(sink, &mut lines)?;
        push_page(&mut lines, state, page);
    }
    make_room(sink, &mut lines)?;
    push_totals(&mut lines, state);
    write_all(sink, lines.as_str().as_bytes())
}
