//! Page vectors: sets of pages, as words of 64 bits. Page p stands in bit `p % 64` of word `p / 64`.
ghost use Rattle.std.specs.Prelude.{ℕ, ◌≡◌, ◌<◌, ◌/◌, ◌^◌, ◌==◌, ◌||◌, MatchOption};
ghost use Rattle.pas_bits.specs.PageVectors.{page_mask as mask_of_page, is_in_word, HasNoPage, IsLowestPage};

/// The page's bit in its word.
#[inline]
pub fn page_mask(page: u32) -> u64
    ensures { result ≡ mask_of_page page }
{
    1 << (page % 64)
}

/// Whether the page's bit is set in its word.
#[inline]
pub fn has_page(word: u64, page: u32) -> bool
    ensures { result ≡ is_in_word word page }
{
    word >> (page % 64) & 1 == 1
}

/// The page's word with the page's bit set too, and no other changed.
#[inline]
pub fn with_page(word: u64, page: u32) -> u64
    ensures { (p : ℕ) → p / 64 ≡ page / 64 → is_in_word result p ≡ ((page == p) || is_in_word word p) }
{
    word | page_mask(page)
}

/// The lowest page from `next` on whose bit is set in this word, which is the word of this number. None exactly where there is none. A
/// few word operations.
pub fn lowest_page(word: u64, number: u32, next: u32) -> Option<u32>
    requires { number < 2 ^ 25 }
    ensures { MatchOption result (HasNoPage word number next) (IsLowestPage word number next) }
{
    let low = next.saturating_sub(64 * number);
    if low >= 64 {
        return None;
    }
    let rest = word >> low;
    if rest == 0 {
        return None;
    }
    Some(64 * number + low + rest.trailing_zeros())
}
