//! Looks at the pages and the grains of a run.
ghost use Rattle.std.specs.Prelude.{ℕ, ◌≡◌, ◌<◌, ◌≤◌, MatchBool, length, vec_len, get_or, true, false};
ghost use Rattle.pas_machine.specs.Places.{blank_page, ended_at, IsOfHeap, IsSome, IsEach};

use crate::places::Page;

/// Whether some of these pages has no deed of the heap. Looks at each at most once.
pub(crate) fn lacks_deed(pages: &[Page], from: usize, until: usize, heap: u8) -> bool
    requires { until ≤ length pages.now }
    ensures { MatchBool result (IsSome from until (λ page. IsOfHeap heap (get_or pages.now page blank_page).directory → ⊥))
        (IsEach from until (λ page. IsOfHeap heap (get_or pages.now page blank_page).directory)) }
{
    for page in from..until {
        if !pages[page].is_of(heap) {
            return true;
        }
    }
    false
}

/// Whether some of these pages isn't backed. Looks at each at most once.
pub(crate) fn lacks_backing(pages: &[Page], from: usize, until: usize) -> bool
    requires { until ≤ length pages.now }
    ensures { MatchBool result (IsSome from until (λ page. (get_or pages.now page blank_page).backed ≡ false))
        (IsEach from until (λ page. (get_or pages.now page blank_page).backed ≡ true)) }
{
    for page in from..until {
        if !pages[page].backed {
            return true;
        }
    }
    false
}

/// Whether a block has some of these grains. Looks at each at most once.
pub(crate) fn is_some_covered(covered: &[bool], from: usize, until: usize) -> bool
    requires { until ≤ length covered.now }
    ensures { MatchBool result (IsSome from until (λ x. get_or covered.now x false ≡ true)) (IsEach from until (λ x. get_or covered.now x false ≡ false)) }
{
    for grain in from..until {
        if covered[grain] {
            return true;
        }
    }
    false
}

/// Marks these grains as covered or not, each once.
pub(crate) fn cover(covered: &mut Vec<bool>, from: usize, until: usize, has: bool)
    requires order { from ≤ until }
    requires within { until ≤ vec_len covered.old }
    ensures sized { vec_len covered.new ≡ vec_len covered.old }
    ensures set { IsEach from until (λ x. get_or covered.new.items x false ≡ has) }
    ensures below { (x : ℕ) → x < from → get_or covered.new.items x false ≡ get_or covered.old.items x false }
    ensures above { (x : ℕ) → until ≤ x → get_or covered.new.items x false ≡ get_or covered.old.items x false }
{
    for grain in from..until {
        covered[grain] = has;
    }
}

/// Raises the greatest epoch of an end on each of these pages.
pub(crate) fn note_end(pages: &mut Vec<Page>, from: usize, until: usize, epoch: u64)
    requires order { from ≤ until }
    requires within { until ≤ vec_len pages.old }
    ensures sized { vec_len pages.new ≡ vec_len pages.old }
    ensures set { IsEach from until (λ page. get_or pages.new.items page blank_page ≡ ended_at epoch (get_or pages.old.items page blank_page)) }
    ensures below { (page : ℕ) → page < from → get_or pages.new.items page blank_page ≡ get_or pages.old.items page blank_page }
    ensures above { (page : ℕ) → until ≤ page → get_or pages.new.items page blank_page ≡ get_or pages.old.items page blank_page }
{
    for page in from..until {
        pages[page].epoch = pages[page].epoch.max(epoch);
    }
}
