//! Pages that are noted as short of free grains, by the run that isn't free on them.
ghost use Rattle.std.specs.Prelude.{ℕ, ◌≡◌, ◌≤◌, ◌<◌, ◌/◌, ◌==◌, ◌&&◌, true, not, vec_len, vec_capacity};
ghost use Rattle.pas_bits.specs.PageVectors.{is_in_word};
ghost use Rattle.pas_plain.specs.ShortRows.{has_page as has_page_in, row_at};

use pas_bits::page_vector::{has_page, page_mask, with_page};
use pas_profile::NoMemory;
use std::alloc::Global;

/// For how many runs there are notes at most.
const MOST_ROWS: usize = 128;

/// The pages that have no free run of so many grains from a multiple of the alignment on, as a page vector.
#[derive(Clone, Copy, Drop)]
pub struct ShortRow {
    grains: u16,
    align: u16,
    pages: [u64; 257],
}

/// The notes: a row for each run of which a page was noted. The rows are made when they are needed, in room that was reserved at the opening.
#[derive(Drop)]
pub struct ShortPages {
    rows: Vec<ShortRow>,
    /// Where the row of a run may stand.
    places: [u16; 512],
    /// The pages of all rows.
    any: [u64; 257],
    ghost within: { vec_len rows ≤ 128 },
    ghost reserved: { 128 ≤ vec_capacity rows },
    ghost all: { (at p : ℕ) → at < vec_len rows → has_page_in (row_at rows.items at).pages p ≡ true → has_page_in any p ≡ true },
}

/// The page's word without the page.
#[inline]
fn without_page(word: u64, page: u32) -> u64
    ensures { (p : ℕ) → p / 64 ≡ page / 64 → is_in_word result p ≡ (not (page == p) && is_in_word word p) }
{
    word & !page_mask(page)
}

/// The place of a run in the table of places.
#[inline]
fn place_of(grains: u16, align: u16) -> usize
    ensures { result < 512 }
{
    let sort = if align == 1 { 0 } else { 256 };
    (grains as usize + sort) % 512
}

impl ShortPages {
    ghost use Rattle.std.specs.Prelude.{◌*◌, ◌+◌, ◌≢◌, ◌⊎◌, IfOk, MatchOption};
    ghost use Rattle.pas_bits.specs.Bits.{has_bit};
    ghost use Rattle.pas_plain.specs.Short.{HasNote, IsRowOf};

    /// No notes.
    pub(crate) fn opened(alloc: Global) -> Result<ShortPages, NoMemory>
        ensures { IfOk result (λ short. (grains align p : ℕ) → HasNote short grains align p → ⊥) }
    {
        let Ok(rows) = Vec::with_capacity(alloc, MOST_ROWS) else {
            return Err(NoMemory);
        };
        Ok(ShortPages {
            rows,
            places: [0; 512],
            any: [0; 257],
        })
    }

    /// The pages of a block that are noted for this run.
    #[inline]
    pub(crate) fn pages(&self, grains: u16, align: u16, block: u32) -> u64
        requires { block < 257 }
        ensures { (b : ℕ) → b < 64 → has_bit result b ≡ true → HasNote self.now grains align (64 * block + b) }
    {
        let at = self.places[place_of(grains, align)] as usize;
        match self.rows.get(at) {
            Some(row) if row.grains == grains && row.align == align => row.pages[block as usize],
            _ => 0,
        }
    }

    /// Whether the page is noted for some run. It isn't where this says no.
    #[inline(always)]
    pub(crate) fn has(&self, page: u32) -> bool
        requires { page < 16448 }
        ensures { (grains align : ℕ) → HasNote self.now grains align page → result ≡ true }
    {
        has_page(self.any[(page / 64) as usize], page)
    }

    /// Where the row of this run stands, which is made where there is none. None where there is no room for it.
    fn row_for(&mut self, grains: u16, align: u16) -> Option<usize>
        ensures same { (g a p : ℕ) → HasNote self.new g a p → HasNote self.old g a p }
        ensures row { MatchOption result (Unit {0}) (IsRowOf self.new grains align) }
    {
        let place = place_of(grains, align);
        let at = self.places[place] as usize;
        if at < self.rows.len() && self.rows[at].grains == grains && self.rows[at].align == align {
            return Some(at);
        }
        let next = self.rows.len();
        if next == MOST_ROWS {
            return None;
        }
        self.rows.push_reserved(ShortRow {
            grains,
            align,
            pages: [0; 257],
        });
        self.places[place] = next as u16;
        Some(next)
    }

    /// Notes the page for this run, where there is room for such notes.
    pub(crate) fn note(&mut self, grains: u16, align: u16, page: u32)
        requires { page < 16448 }
        ensures { (g a p : ℕ) → HasNote self.new g a p → HasNote self.old g a p ⊎ ((g ≡ grains) × (a ≡ align) × (p ≡ page)) }
    {
        let Some(at) = self.row_for(grains, align) else {
            return;
        };
        let block = (page / 64) as usize;
        self.any[block] = with_page(self.any[block], page);
        self.rows[at].pages[block] = with_page(self.rows[at].pages[block], page);
    }

    /// Drops all notes of the page.
    #[inline(never)]
    pub(crate) fn forget(&mut self, page: u32)
        requires { page < 16448 }
        ensures { (g a p : ℕ) → HasNote self.new g a p → HasNote self.old g a p × (p ≢ page) }
    {
        let block = (page / 64) as usize;
        for at in 0..self.rows.len() {
            self.rows[at].pages[block] = without_page(self.rows[at].pages[block], page);
        }
        self.any[block] = without_page(self.any[block], page);
    }
}
