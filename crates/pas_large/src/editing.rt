//! Changes of a list of ranges.
ghost use Rattle.std.specs.Prelude.{◌≡◌, ◌≤◌, ◌<◌, ◌+◌, ◌-◌, ◌++◌, ◌∷◌, drop, take, length, slice_index_or};
ghost use Rattle.pas_large.specs.{Spans.left_of, declared.span.Span.Span as TheSpan};

use crate::span::Span;
use arrayvec::ArrayVec;

/// The most ranges of an index.
pub const MOST_RANGES: usize = 512;

/// Puts the range in the place of those from `place` to below `end`. There is room where there is none.
#[tactic(auto, using(crate::proofs::Spans::without_more))]
pub(crate) fn replace(
    spans: &mut ArrayVec<Span, MOST_RANGES>,
    place: usize,
    end: usize,
    whole: Span,
)
    requires span { place ≤ end }
    requires within { end ≤ length spans.old.items }
    requires room { length spans.old.items + 1 ≤ end - place + 512 }
    ensures { spans.new.items ≡ take place spans.old.items ++ whole ∷ drop end spans.old.items }
{
    for here in place..end {
        spans.remove(place);
    }
    spans.insert(place, whole);
}

/// Takes the first so many pages out of the range at this place, which has as many.
pub(crate) fn shorten(spans: &mut ArrayVec<Span, MOST_RANGES>, place: usize, pages: u32)
    requires within { place < length spans.old.items }
    requires long { (d : TheSpan) → (slice_index_or spans.old.items place d).first + pages ≤ (slice_index_or spans.old.items place d).end }
    ensures { (d : TheSpan) → spans.new.items ≡ take place spans.old.items ++ (left_of pages (slice_index_or spans.old.items place d) ++ drop (place + 1) spans.old.items) }
{
    let span = spans.as_slice()[place];
    if pages < span.end - span.first {
        let first = span.first + pages;
        spans.as_mut_slice()[place] = Span {
            first,
            end: span.end,
        };
    } else {
        spans.remove(place);
    }
}
