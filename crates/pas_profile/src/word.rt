//! The words of a region and where each stands.

ghost use Rattle.std.specs.Prelude.{◌≤◌, ◌≡◌, ◌+◌, ◌-◌, ◌*◌};

use crate::profile::Profile;

/// A word of the region, each of 64 bits. Page p stands in bit `p % 64` of word `p / 64` of each page vector.
#[derive(Clone, Copy, PartialEq, Eq, Drop)]
pub enum Word {
    /// The epoch. It never falls.
    Epoch,
    /// Page and number of the word, 0 to 3. Grain g is bit `g % 64` of word `g / 64`. Set: the grain is free. Clear: an actor
    /// holds the grain, or a live block covers it. Only the actor that has the page's right clears bits.
    Free(u32, u8),
    /// Page and grain. Which block lives at the grain, and how many ended there before.
    Life(u32, u8),
    /// The directory of the page, 0 where it has none. Written once.
    Deed(u32),
    /// 1 where the page is backed by memory, else 0.
    Backed(u32),
    /// The greatest epoch that an actor stamped on the page after it ended a block there.
    Stamp(u32),
    /// A page vector. Set: nobody has the page's right, since it was seen full.
    Parked(u32),
    /// A page vector. Set: the scavenger may look at the page.
    Empty(u32),
    /// Number of the directory, and a page vector. Set: any actor may take the page's right. It has no meaning on pages of another
    /// directory, where it is clear.
    Eligible(u16, u32),
}

/// Words of one page: 4 of free grains, 256 of lives, the deed, whether it is backed, and the stamp.
const PAGE_WORDS: usize = 263;

/// The place of a page's first word. The epoch stands before all pages.
#[inline]
fn first_word(page: u32) -> usize
    requires { 1 ≤ page }
    ensures { result ≡ 1 + 263 * (page - 1) }
{
    1 + PAGE_WORDS * (page as usize - 1)
}

/// Where the words of a region of one profile stand.
#[derive(Clone, Copy, PartialEq, Eq, Drop)]
pub struct Layout {
    pub pages: u32,
    pub heaps: u8,
    ghost page_limit: { pages ≤ 16384 },
    ghost heap_limit: { heaps ≤ 32 },
}

impl Layout {
    ghost use Rattle.std.specs.Prelude.{◌<◌};
    ghost use Rattle.pas_profile.specs.{Profiles.{IsValid, IsWordIn}, Layouts.{index_of, words_of}};

    /// The layout of a region of this profile.
    pub fn new(profile: &Profile) -> Layout
        requires { IsValid profile.now }
        ensures pages { result.pages ≡ profile.now.pages }
        ensures heaps { result.heaps ≡ profile.now.heaps }
    {
        Layout {
            pages: profile.pages,
            heaps: profile.heaps,
        }
    }

    /// The place of the word among all words. Distinct words have distinct places.
    #[inline(always)]
    pub fn index(&self, word: Word) -> usize
        requires { IsWordIn self.now.pages self.now.heaps word }
        ensures value { result ≡ index_of self.now.pages word }
        ensures within { result < words_of self.now.pages self.now.heaps }
    {
        let pages = self.pages as usize;
        let vectors = 1 + PAGE_WORDS * pages;
        let vector = pages / 64 + 1;
        match word {
            Word::Epoch => 0,
            Word::Free(page, word) => first_word(page) + word as usize,
            Word::Life(page, grain) => first_word(page) + 4 + grain as usize,
            Word::Deed(page) => first_word(page) + 260,
            Word::Backed(page) => first_word(page) + 261,
            Word::Stamp(page) => first_word(page) + 262,
            Word::Parked(j) => vectors + j as usize,
            Word::Empty(j) => vectors + vector + j as usize,
            Word::Eligible(directory, j) => vectors
                + 2 * vector
                + directory as usize * vector
                + j as usize,
        }
    }

    /// The number of all words.
    pub fn words(&self) -> usize
        ensures { result ≡ words_of self.now.pages self.now.heaps }
    {
        let pages = self.pages as usize;
        let vector = pages / 64 + 1;
        1 + PAGE_WORDS * pages + 2 * vector + 23 * self.heaps as usize * vector
    }
}
