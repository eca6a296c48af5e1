//! Pages that follow each other, by their bounds.
ghost use Rattle.std.specs.Prelude.{◌≡◌, ◌≤◌, ◌+◌};
ghost use Rattle.pas_large.specs.Spans.{span_of, hull};

use pas_profile::Range;

/// Pages that follow each other: the first one, and the one behind the last.
#[derive(Clone, Copy, Default, PartialEq, Eq, Drop)]
pub struct Span {
    pub first: u32,
    pub end: u32,
}

impl Span {
    /// The pages of a range.
    pub(crate) fn of(range: Range) -> Span
        requires { range.first + range.pages ≤ 65536 }
        ensures { result ≡ span_of range }
    {
        Span {
            first: range.first,
            end: range.first + range.pages,
        }
    }

    /// All pages from the first one of both to the last one of both.
    pub(crate) fn with(&self, other: Span) -> Span
        ensures { result ≡ hull self.now other }
    {
        Span {
            first: self.first.min(other.first),
            end: self.end.max(other.end),
        }
    }
}
