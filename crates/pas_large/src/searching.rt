//! Places in a list of ranges.
ghost use Rattle.std.specs.Prelude.{◌≡◌, ◌≤◌, ◌<◌, ◌++◌, ◌∷◌, drop, take, length, slice_index_or};
ghost use Rattle.pas_large.specs.{Spans.{AreApart, EndsFrom, joined, lowest_fit, cut_at, has_page, IsPlaceOf}, Sets.FitsAt, declared.span.Span.Span as TheSpan};

use crate::span::Span;

/// How many ranges end before the page, with a page between them.
pub(crate) fn place_behind(spans: &[Span], first: u32) -> usize
    ensures within { result ≤ length spans.now }
    ensures before { (new : TheSpan) → new.first ≡ first → joined new spans.now ≡ take result spans.now ++ joined new (drop result spans.now) }
    ensures behind { EndsFrom first (drop result spans.now) }
{
    let mut place = 0;
    while place < spans.len() && spans[place].end < first {
        place += 1;
    }
    place
}

/// The range, made one with those from this place on that it meets or touches, and the place behind them.
pub(crate) fn gather(spans: &[Span], place: usize, new: Span) -> (usize, Span)
    requires apart { AreApart 0 spans.now }
    requires within { place ≤ length spans.now }
    requires behind { EndsFrom new.first (drop place spans.now) }
    ensures from { place ≤ result.0 }
    ensures within { result.0 ≤ length spans.now }
    ensures joins { joined new (drop place spans.now) ≡ result.1 ∷ drop result.0 spans.now }
{
    let mut whole = new;
    let mut end = place;
    while end < spans.len() && spans[end].first <= whole.end {
        whole = spans[end].with(whole);
        end += 1;
    }
    (end, whole)
}

/// The first page of the lowest range that has so many pages.
#[tactic(auto, using(crate::proofs::Spans::at_place, crate::proofs::Spans::blank))]
pub(crate) fn lowest(spans: &[Span], pages: u32) -> Option<u32>
    requires apart { AreApart 0 spans.now }
    ensures { result ≡ lowest_fit pages spans.now }
{
    for span in spans {
        if pages <= span.end - span.first {
            return Some(span.first);
        }
    }
    None
}

/// The place of the range that begins at the page.
pub(crate) fn place_at(spans: &[Span], first: u32, pages: u32) -> usize
    requires apart { AreApart 0 spans.now }
    requires fits { FitsAt (has_page spans.now) pages first }
    ensures within { result < length spans.now }
    ensures before { cut_at first pages spans.now ≡ take result spans.now ++ cut_at first pages (drop result spans.now) }
    ensures here { (d : TheSpan) → IsPlaceOf first pages (slice_index_or spans.now result d) }
{
    let mut place = 0;
    while spans[place].first != first {
        place += 1;
    }
    place
}
