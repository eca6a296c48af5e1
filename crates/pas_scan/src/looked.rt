//! A search of a directory.
ghost use Rattle.std.specs.Prelude.{◌≢◌};
ghost use Rattle.pas_scan.specs.Marks.{IsHighest};

use pas_bits::page_vector::{has_page, with_page};
use pas_profile::{Directory, deed_word};

/// A search of a directory: the next page to try, and the set of pages that didn't fit, as a page vector.
#[derive(Drop)]
pub struct Looked {
    pub directory: Directory,
    pub next: u32,
    pub unfit: [u64; 257],
}

/// The highest bit that is set of a word that isn't 0.
fn highest_bit(word: u64) -> u32
    requires { word ≢ 0 }
    ensures { IsHighest word result }
{
    let mut low = 0;
    let mut span = 64;
    while span > 1 {
        let half = span / 2;
        if word >> (low + half) == 0 {
            span = half;
        } else {
            low += half;
            span -= half;
        }
    }
    low
}

impl Looked {
    ghost use Rattle.std.specs.Prelude.{ℕ, ◌≡◌, ◌==◌, ◌/◌, ◌%◌, ◌<◌, ◌&&◌, ◌||◌, false, not, length};
    ghost use Rattle.pas_bits.specs.Bits.{has_bit};
    ghost use Rattle.pas_profile.specs.Directories.{deed_word_of, IsDirectory};
    ghost use Rattle.pas_scan.specs.Marks.{is_marked, IsBehind};

    /// A search that begins at page 1, with no unfit page.
    pub fn begin(directory: Directory) -> Looked
        ensures directory { result.directory ≡ directory }
        ensures next { result.next ≡ 1 }
        ensures unfit { (p : ℕ) → is_marked result.unfit p ≡ false }
    {
        Looked {
            directory,
            next: 1,
            unfit: [0; 257],
        }
    }

    /// Adds the page to the unfit ones.
    pub fn mark_unfit(&mut self, page: u32)
        requires { page < 16448 }
        ensures directory { self.new.directory ≡ self.old.directory }
        ensures next { self.new.next ≡ self.old.next }
        ensures unfit { (p : ℕ) → is_marked self.new.unfit p ≡ ((page == p) || is_marked self.old.unfit p) }
    {
        let block = (page / 64) as usize;
        self.unfit[block] = with_page(self.unfit[block], page);
    }

    /// Adds the pages of these bits of a block to the unfit ones. The search goes on behind the highest of them.
    pub fn pass_by(&mut self, block: u32, pages: u64)
        requires block { block < 257 }
        requires some { pages ≢ 0 }
        ensures directory { self.new.directory ≡ self.old.directory }
        ensures next { IsBehind block pages self.new.next }
        ensures sized { length self.new.unfit ≡ 257 }
        ensures unfit { (p : ℕ) → is_marked self.new.unfit p ≡ (((p / 64 == block) && has_bit pages (p % 64)) || is_marked self.old.unfit p) }
    {
        self.unfit[block as usize] |= pages;
        self.next = 64 * block + highest_bit(pages) + 1;
    }

    /// Whether a page with this deed word is of the directory and isn't unfit.
    pub fn is_open(&self, page: u32, deed: u64) -> bool
        requires page { page < 16448 }
        requires directory { IsDirectory self.now.directory }
        ensures { result ≡ ((deed == deed_word_of self.now.directory) && not (is_marked self.now.unfit page)) }
    {
        deed == deed_word(self.directory) && !self.is_unfit(page)
    }

    /// Whether the page is unfit.
    fn is_unfit(&self, page: u32) -> bool
        requires { page < 16448 }
        ensures { result ≡ is_marked self.now.unfit page }
    {
        has_page(self.unfit[(page / 64) as usize], page)
    }
}
