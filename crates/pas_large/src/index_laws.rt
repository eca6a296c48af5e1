//! What is known of every index.
ghost use Rattle.std.specs.Prelude.{◌≡◌, ◌≤◌, ◌+◌, ℕ, List};
ghost use Rattle.pas_large.specs.{Spans.{AreApart, span_of, joined, has_page}, Sets.HasMore, declared.span.Span.Span as TheSpan};

use crate::index::LargeIndex;
use pas_profile::Range;

/// Ranges that neither overlap nor touch and have the pages of the index and those of the range are just the ranges that `insert` speaks of. So
/// where it answers `Full`, no index has these pages.
#[tactic(auto, using(crate::proofs::Spans::joined_only))]
pub fn one_list_of_ranges(index: &LargeIndex, range: Range)
    requires first { 1 ≤ range.first }
    requires some { 1 ≤ range.pages }
    requires last { range.first + range.pages ≤ 65536 }
    ensures { (spans : List TheSpan) → AreApart 0 spans → HasMore (span_of range) (has_page index.now) (has_page spans) → spans ≡ joined (span_of range) index.now }
{
    let _count = index.len();
}
