//! The summary of a replay.
ghost use Rattle.std.specs.Prelude.{◌≡◌, ◌+◌, ◌≤◌, ◌++◌, length, count_by};
ghost use Rattle.arrayvec.specs.ArrayString.{array_string_len};
ghost use Rattle.pas_report.specs.Counts.{totals_by_words};
ghost use Rattle.pas_telling.specs.Summaries.{counts, line_text, summary_text};

use arrayvec::ArrayString;
use pas_profile::{Event, Why};
use pas_records::text::push_field;
use pas_records::{Record, Said};
use pas_report::total_line;
use pas_steps::State;

/// A sort of lines that a summary counts.
#[derive(Clone, Copy, Drop)]
pub(crate) enum Tally {
    Give,
    Freed,
    Ended,
    NoBlock,
    NoSpace,
    Held,
    Skipped,
}

/// The text of a summary: nine lines, of at most 368 bytes.
pub type Summary = ArrayString<512>;

impl Tally {
    /// Whether the record's line is of this sort.
    fn counts(self, shown: &Record) -> bool
        ensures { result ≡ counts self shown.now }
    {
        match self {
            Tally::Give => matches!(shown, Record::Event(Event::Give { .. })),
            Tally::Freed => matches!(shown, Record::Event(Event::End { .. })),
            Tally::Ended => matches!(
                shown,
                Record::Event(Event::Reject {
                    why: Why::Ended,
                    ..
                })
            ),
            Tally::NoBlock => matches!(
                shown,
                Record::Event(Event::Reject {
                    why: Why::NoBlock,
                    ..
                })
            ),
            Tally::NoSpace => matches!(shown, Record::Said(_, Said::NoSpace { .. })),
            Tally::Held => matches!(shown, Record::Said(_, Said::Held { .. })),
            Tally::Skipped => matches!(shown, Record::Said(_, Said::Skipped { .. })),
        }
    }
}

/// How many of the records have lines of this sort. One pass over them.
fn count(records: &[Record], tally: Tally) -> u64
    ensures { result ≡ count_by (counts tally) records.now }
{
    records.iter().filter(|shown| tally.counts(shown)).count() as u64
}

/// Adds a line of words and a number.
fn push_line(text: &mut Summary, words: &str, n: u64)
    requires { array_string_len text.old + length words.now + 21 ≤ 512 }
    ensures bytes { text.new.bytes ≡ text.old.bytes ++ line_text words.now n }
    ensures len { array_string_len text.new ≤ array_string_len text.old + length words.now + 21 }
{
    push_field(text, words, n);
    text.push_str("\n");
}

/// The summary of the replay that these records and this state are of. Seven passes over the records, and one over the region's words.
pub fn summary_of(ops: u32, records: &[Record], state: &State) -> Summary
    ensures { result.bytes ≡ summary_text ops records.now (totals_by_words state.now) }
{
    let mut text = Summary::new();
    push_line(&mut text, "ops ", ops as u64);
    push_line(&mut text, "give ", count(records, Tally::Give));
    push_line(&mut text, "freed ", count(records, Tally::Freed));
    push_line(&mut text, "ended ", count(records, Tally::Ended));
    push_line(&mut text, "no-block ", count(records, Tally::NoBlock));
    push_line(&mut text, "no-space ", count(records, Tally::NoSpace));
    push_line(&mut text, "held ", count(records, Tally::Held));
    push_line(&mut text, "skipped ", count(records, Tally::Skipped));
    text.push_str(total_line(state).as_str());
    text
}
