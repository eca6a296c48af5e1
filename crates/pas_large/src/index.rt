//! The index of a heap.
ghost use Rattle.std.specs.Prelude.{◌≡◌};

use crate::editing::{MOST_RANGES, replace, shorten};
use crate::searching::{gather, lowest, place_at, place_behind};
use crate::span::Span;
use arrayvec::ArrayVec;
use pas_profile::Range;
use std::marker::Model;

/// The pages weren't added: the index would have more ranges than there is room for.
#[derive(Clone, Copy, Debug, PartialEq, Eq, Drop)]
pub struct Full;

/// A set of pages: at most 512 ranges in order, which neither overlap nor touch. It takes no memory.
#[derive(Drop)]
pub struct LargeIndex {
    spans: ArrayVec<Span, MOST_RANGES>,
}

impl Model for LargeIndex {
    ghost use Rattle.std.specs.Prelude.{List};
    ghost use Rattle.pas_large.specs.{Spans.AreApart, declared.span.Span.Span as TheSpan};

    ghost Value = { List TheSpan };

    ghost view = { λ index. index.spans.items };

    ghost invariant = { λ index. AreApart 0 index.spans.items };
}

impl LargeIndex {
    ghost use Rattle.std.specs.Prelude.{◌≡◌, ◌≤◌, ◌<◌, ◌+◌, ◌↔◌, [], IsErr, OnOk, OnErr, MatchOption, length};
    ghost use Rattle.pas_large.specs.{Spans.{AreApart, span_of, joined, has_page, lowest_fit, cut_at, cut_lowest}, Sets.{FitsAt, IsLowestFit, HasNoFit}};
    ghost use Rattle.pas_large.specs.Sets.{HasMore, HasFewer};

    /// An index without a page.
    pub fn new() -> LargeIndex
        ensures { result ≡ [] }
    {
        LargeIndex {
            spans: ArrayVec::new(),
        }
    }

    /// The number of ranges, at most 512. They stand in order, and behind each is a page that is of none.
    pub fn len(&self) -> usize
        ensures value { result ≡ length self.now }
        ensures most { result ≤ 512 }
        ensures apart { AreApart 0 self.now }
    {
        self.spans.len()
    }

    /// Adds the pages of the range. Ranges that overlap or touch become one. Full exactly where 513 ranges would be there: the index is as it was
    /// then, and the range is forgotten.
    pub fn insert(&mut self, range: Range) -> Result<(), Full>
        requires first { 1 ≤ range.first }
        requires some { 1 ≤ range.pages }
        requires last { range.first + range.pages ≤ 65536 }
        ensures full { IsErr result ↔ (512 < length (joined (span_of range) self.old)) }
        ensures ranges { OnOk result (self.new ≡ joined (span_of range) self.old) }
        ensures pages { OnOk result (HasMore (span_of range) (has_page self.old) (has_page self.new)) }
        ensures kept { OnErr result (self.new ≡ self.old) }
    {
        let new = Span::of(range);
        let place = place_behind(self.spans.as_slice(), new.first);
        let (end, whole) = gather(self.spans.as_slice(), place, new);
        if place == end && self.spans.is_full() {
            return Err(Full);
        }
        replace(&mut self.spans, place, end, whole);
        Ok(())
    }

    /// The first page of the lowest range of at least so many pages. None exactly where no range has as many.
    #[tactic(auto, using(crate::proofs::Spans::found_for))]
    pub fn first_fit(&self, pages: u32) -> Option<u32>
        ensures ranges { result ≡ lowest_fit pages self.now }
        ensures pages { MatchOption result (HasNoFit (has_page self.now) pages) (IsLowestFit (has_page self.now) pages) }
    {
        lowest(self.spans.as_slice(), pages)
    }

    /// Takes the first so many pages out of the range that begins at this page and has as many.
    pub fn cut(&mut self, first: u32, pages: u32)
        requires { FitsAt (has_page self.old) pages first }
        ensures ranges { self.new ≡ cut_at first pages self.old }
        ensures pages { HasFewer (record { first = first; end = first + pages }) (has_page self.old) (has_page self.new) }
    {
        let place = place_at(self.spans.as_slice(), first, pages);
        shorten(&mut self.spans, place, pages);
    }

    /// Takes the first so many pages of the lowest range of at least so many out, and answers their first page. None exactly where no range has as many,
    /// and the index is as it was then.
    pub fn take_lowest(&mut self, pages: u32) -> Option<u32>
        ensures found { result ≡ lowest_fit pages self.old }
        ensures left { self.new ≡ cut_lowest pages self.old }
    {
        let first = lowest(self.spans.as_slice(), pages)?;
        self.cut(first, pages);
        Some(first)
    }
}
