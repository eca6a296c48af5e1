//! The words of a region, of which the life words of the first grains of all pages stand once more side by side.
ghost use Rattle.std.specs.Prelude.{ℕ, ◌≡◌, ◌≤◌, ◌-◌, IfOk, replicate, slice_index, vec_len};
ghost use Rattle.pas_profile.specs.declared.word.Word.{Word as TheWord};
ghost use Rattle.pas_steps.specs.Paged.{value_in};

use pas_profile::{Layout, NoMemory, Word};
use pas_steps::PagedWords;
use std::alloc::Global;

/// The words. A block of whole pages begins at a first grain, and a keeper looks at the life words of many such blocks, one after the other: in their pages
/// they lie 2 KB apart, and here 8 bytes.
#[derive(Drop)]
pub struct NearWords {
    words: PagedWords,
    firsts: Vec<u64>,
    ghost sized: { vec_len firsts ≡ words.layout.pages },
    ghost same: { (page : ℕ) → 1 ≤ page → page ≤ words.layout.pages → slice_index firsts.items (page - 1) ≡ value_in words (TheWord.Life page 0) },
}

/// So many life words that nobody used yet.
fn no_lives(alloc: Global, count: usize) -> Result<Vec<u64>, NoMemory>
    ensures { IfOk result (λ lives. lives.items ≡ replicate count 0) }
{
    match vec![in alloc; 0u64; count] {
        Ok(lives) => Ok(lives),
        Err(_) => Err(NoMemory),
    }
}

impl NearWords {
    ghost use Rattle.std.specs.Prelude.{if◌then◌else◌};
    ghost use Rattle.pas_profile.specs.{Profiles.IsWordIn, Layouts.{opening, same_word}};

    /// The words of a region that nobody used yet.
    pub(crate) fn opened(alloc: Global, layout: Layout) -> Result<NearWords, NoMemory>
        ensures layout { IfOk result (λ near. near.words.layout ≡ layout) }
        ensures values { IfOk result (λ near. (w : TheWord) → IsWordIn layout.pages layout.heaps w → value_in near.words w ≡ opening w) }
    {
        let count = layout.pages as usize;
        let words = PagedWords::opened(alloc, layout)?;
        let firsts = no_lives(alloc, count)?;
        Ok(NearWords { words, firsts })
    }

    /// The words, once no more is read.
    pub(crate) fn into_words(self) -> PagedWords
        ensures { result ≡ self.words }
    {
        self.words
    }

    /// The value of a word.
    #[inline(always)]
    pub(crate) fn get(&self, word: Word) -> u64
        requires { IsWordIn self.now.words.layout.pages self.now.words.layout.heaps word }
        ensures { result ≡ value_in self.now.words word }
    {
        if let Word::Life(page, grain) = word {
            if grain == 0 {
                return self.firsts[page as usize - 1];
            }
        }
        self.words.get(word)
    }

    /// Writes a word, and leaves each other one as it was.
    #[inline(always)]
    pub(crate) fn set(&mut self, word: Word, value: u64)
        requires { IsWordIn self.old.words.layout.pages self.old.words.layout.heaps word }
        ensures layout { self.new.words.layout ≡ self.old.words.layout }
        ensures words { (w : TheWord) → IsWordIn self.old.words.layout.pages self.old.words.layout.heaps w → value_in self.new.words w ≡ (if same_word word w then value else value_in self.old.words w) }
    {
        self.words.set(word, value);
        if let Word::Life(page, grain) = word {
            if grain == 0 {
                self.firsts[page as usize - 1] = value;
            }
        }
    }
}
