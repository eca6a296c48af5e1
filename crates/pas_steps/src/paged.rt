//! The words of a region, of which those of a page stand in memory once one of them was written.
ghost use Rattle.std.specs.Prelude.{◌≡◌, ◌≤◌, ◌*◌, IfOk, replicate, vec_len, vec_capacity};
ghost use Rattle.pas_profile.specs.Profiles.{vector_words};

use pas_profile::{Layout, NoMemory, Word};
use std::alloc::Global;

/// The words of one page but for its deed and its life words. A search reads those of many pages, so they stand close together.
#[derive(Clone, Copy, Drop)]
pub struct PageWords {
    pub(crate) free: [u64; 4],
    pub(crate) backed: u64,
    pub(crate) stamp: u64,
}

/// Those of a page that nobody used yet.
const OPENING: PageWords = PageWords {
    free: [u64::MAX; 4],
    backed: 0,
    stamp: 0,
};

/// The life words of a page that nobody used yet.
const NO_LIVES: [u64; 256] = [0; 256];

/// The words of a region, one by one. Those of a page stand in memory from the first write of one of them, or of one of a higher page, to another
/// value than that of the opening. Room for all is reserved when the region is opened, so that a write takes no memory.
#[derive(Drop)]
pub struct PagedWords {
    layout: Layout,
    epoch: u64,
    /// Those of the lowest pages, and their life words.
    pages: Vec<PageWords>,
    lives: Vec<[u64; 256]>,
    deeds: Vec<u64>,
    parked: Vec<u64>,
    empty: Vec<u64>,
    /// A page vector for each directory.
    eligible: Vec<u64>,
    ghost within: { vec_len pages ≤ layout.pages },
    ghost reserved: { layout.pages ≤ vec_capacity pages },
    ghost with_lives: { vec_len lives ≡ vec_len pages },
    ghost lives_reserved: { layout.pages ≤ vec_capacity lives },
    ghost deeds_sized: { vec_len deeds ≡ layout.pages },
    ghost parked_sized: { vec_len parked ≡ vector_words layout.pages },
    ghost empty_sized: { vec_len empty ≡ vector_words layout.pages },
    ghost eligible_sized: { vec_len eligible ≡ 23 * layout.heaps * vector_words layout.pages },
}

/// So many words that are 0.
fn zeros(alloc: Global, count: usize) -> Result<Vec<u64>, NoMemory>
    ensures { IfOk result (λ words. words.items ≡ replicate count 0) }
{
    match vec![in alloc; 0u64; count] {
        Ok(words) => Ok(words),
        Err(_) => Err(NoMemory),
    }
}

impl PagedWords {
    ghost use Rattle.std.specs.Prelude.{◌<◌, if◌then◌else◌, IsTrue, IsFalse};
    ghost use Rattle.pas_profile.specs.{Profiles.IsWordIn, Layouts.{opening, same_word}, declared.word.Word.Word as TheWord};
    ghost use Rattle.pas_steps.specs.Paged.{value_in};

    /// The words of a region that nobody used yet. One pass over the deeds and the page vectors.
    pub fn opened(alloc: Global, layout: Layout) -> Result<PagedWords, NoMemory>
        ensures layout { IfOk result (λ words. words.layout ≡ layout) }
        ensures values { IfOk result (λ words. (w : TheWord) → IsWordIn layout.pages layout.heaps w → value_in words w ≡ opening w) }
    {
        let count = layout.pages as usize;
        let vector = count / 64 + 1;
        let Ok(pages) = Vec::with_capacity(alloc, count) else {
            return Err(NoMemory);
        };
        let Ok(lives) = Vec::with_capacity(alloc, count) else {
            return Err(NoMemory);
        };
        Ok(PagedWords {
            layout,
            epoch: 0,
            pages,
            lives,
            deeds: zeros(alloc, count)?,
            parked: zeros(alloc, vector)?,
            empty: zeros(alloc, vector)?,
            eligible: zeros(alloc, 23 * layout.heaps as usize * vector)?,
        })
    }

    /// The value of a word.
    #[inline(always)]
    pub fn get(&self, word: Word) -> u64
        requires { IsWordIn self.now.layout.pages self.now.layout.heaps word }
        ensures { result ≡ value_in self.now word }
    {
        let vector = self.layout.pages as usize / 64 + 1;
        match word {
            Word::Epoch => self.epoch,
            Word::Free(page, number) => match self.pages.get(page as usize - 1) {
                Some(words) => words.free[number as usize],
                None => u64::MAX,
            },
            Word::Life(page, grain) => match self.lives.get(page as usize - 1) {
                Some(lives) => lives[grain as usize],
                None => 0,
            },
            Word::Deed(page) => self.deeds[page as usize - 1],
            Word::Backed(page) => match self.pages.get(page as usize - 1) {
                Some(words) => words.backed,
                None => 0,
            },
            Word::Stamp(page) => match self.pages.get(page as usize - 1) {
                Some(words) => words.stamp,
                None => 0,
            },
            Word::Parked(j) => self.parked[j as usize],
            Word::Empty(j) => self.empty[j as usize],
            Word::Eligible(directory, j) => self.eligible[directory as usize * vector + j as usize],
        }
    }

    /// How many pages stand in memory, the lowest ones.
    pub fn open_pages(&self) -> u32
        ensures { result ≡ vec_len self.now.pages }
    {
        self.pages.len() as u32
    }

    /// The pages up to this one stand in memory.
    #[tactic(auto, using(crate::proofs::OnPages::opened_one))]
    #[inline(never)]
    fn open(&mut self, page: u32)
        requires { page ≤ self.old.layout.pages }
        ensures open { page ≤ vec_len self.new.pages }
        ensures same { self.new.layout ≡ self.old.layout }
        ensures values { (w : TheWord) → value_in self.new w ≡ value_in self.old w }
    {
        while self.pages.len() < page as usize {
            self.pages.push_reserved(OPENING);
            self.lives.push_reserved(NO_LIVES);
        }
    }

    /// Writes a word, and leaves each other one as it was.
    #[tactic(auto, using(crate::proofs::OnPages::eligible_written))]
    #[inline(always)]
    pub fn set(&mut self, word: Word, value: u64)
        requires { IsWordIn self.old.layout.pages self.old.layout.heaps word }
        ensures layout { self.new.layout ≡ self.old.layout }
        ensures words { (w : TheWord) → IsWordIn self.old.layout.pages self.old.layout.heaps w → value_in self.new w ≡ (if same_word word w then value else value_in self.old w) }
    {
        let vector = self.layout.pages as usize / 64 + 1;
        match word {
            Word::Epoch => self.epoch = value,
            Word::Free(page, number) => {
                if self.is_open_for(page, value, u64::MAX) {
                    self.pages[page as usize - 1].free[number as usize] = value;
                }
            }
            Word::Life(page, grain) => {
                if self.is_open_for(page, value, 0) {
                    self.lives[page as usize - 1][grain as usize] = value;
                }
            }
            Word::Deed(page) => self.deeds[page as usize - 1] = value,
            Word::Backed(page) => {
                if self.is_open_for(page, value, 0) {
                    self.pages[page as usize - 1].backed = value;
                }
            }
            Word::Stamp(page) => {
                if self.is_open_for(page, value, 0) {
                    self.pages[page as usize - 1].stamp = value;
                }
            }
            Word::Parked(j) => self.parked[j as usize] = value,
            Word::Empty(j) => self.empty[j as usize] = value,
            Word::Eligible(directory, j) => {
                self.eligible[directory as usize * vector + j as usize] = value;
            }
        }
    }

    /// Whether the page stands in memory, which it does then if the value isn't that of the opening.
    #[inline(always)]
    fn is_open_for(&mut self, page: u32, value: u64, opening: u64) -> bool
        requires { (1 ≤ page) × (page ≤ self.old.layout.pages) }
        ensures layout { self.new.layout ≡ self.old.layout }
        ensures values { (w : TheWord) → value_in self.new w ≡ value_in self.old w }
        ensures open { IsTrue result → page ≤ vec_len self.new.pages }
        ensures closed { IsFalse result → (vec_len self.old.pages < page) × (value ≡ opening) }
        ensures unchanged { IsFalse result → self.new ≡ self.old }
    {
        if page as usize - 1 >= self.pages.len() {
            if value == opening {
                return false;
            }
            self.open(page);
        }
        true
    }
}
