//! The state of a region at rest: its profile and its words.
ghost use Rattle.std.specs.Prelude.{◌≡◌, vec_len};
ghost use Rattle.pas_profile.specs.{Profiles.IsValid, Layouts.words_of};
ghost use Rattle.pas_steps.specs.Keeping.{layout_of};

use crate::paged::PagedWords;
use crate::row::WordRow;
use pas_profile::{Layout, Profile, Word};

/// How a region at rest keeps its words.
#[derive(Drop)]
pub enum Kept {
    Row(WordRow),
    Paged(PagedWords),
}

/// The words of a region of a profile, at a moment when no actor works at it. Each word has 64 bits.
#[derive(Drop)]
pub struct State {
    profile: Profile,
    words: Kept,
    ghost valid: { IsValid profile },
    ghost pages: { (layout_of words).pages ≡ profile.pages },
    ghost heaps: { (layout_of words).heaps ≡ profile.heaps },
}

impl State {
    ghost use Rattle.std.specs.Prelude.{◌≤◌, slice_index, if◌then◌else◌};
    ghost use Rattle.pas_profile.specs.{Profiles.IsWordOf, Layouts.{index_of, same_word, opening}, declared.word.Word.Word as TheWord};
    ghost use Rattle.pas_steps.specs.{States.{profile_of, word_in, IsUnusedAbove}, Paged.value_in};

    /// The state with these words, each at its place by the profile's layout. It keeps the vector.
    pub fn of_words(profile: Profile, words: Vec<u64>) -> State
        requires valid { IsValid profile }
        requires sized { vec_len words ≡ words_of profile.pages profile.heaps }
        ensures profile { profile_of result ≡ profile }
        ensures words { (word : TheWord) → word_in result word ≡ slice_index words.items (index_of profile.pages word) }
    {
        State {
            profile,
            words: Kept::Row(WordRow::new(Layout::new(&profile), words)),
        }
    }

    /// The state with these words of a region of the profile. It keeps them as they are.
    pub fn of_paged(profile: Profile, words: PagedWords) -> State
        requires valid { IsValid profile }
        requires pages { words.layout.pages ≡ profile.pages }
        requires heaps { words.layout.heaps ≡ profile.heaps }
        ensures profile { profile_of result ≡ profile }
        ensures words { (word : TheWord) → word_in result word ≡ value_in words word }
    {
        State {
            profile,
            words: Kept::Paged(words),
        }
    }

    /// The profile of the region.
    pub fn profile(&self) -> &Profile
        ensures { result.now ≡ profile_of self.now }
    {
        &self.profile
    }

    /// The value of a word of the region. It costs one load.
    #[inline(always)]
    pub fn word(&self, word: Word) -> u64
        requires { IsWordOf (profile_of self.now) word }
        ensures { result ≡ word_in self.now word }
    {
        match &self.words {
            Kept::Row(row) => row.get(word),
            Kept::Paged(words) => words.get(word),
        }
    }

    /// A number of pages above which no grain has a block or had one, and no page is backed: nobody wrote to those words.
    #[tactic(auto, using(crate::proofs::OnPages::unused_paged, crate::proofs::OnPages::unused_row))]
    pub fn used_pages(&self) -> u32
        ensures within { result ≤ (profile_of self.now).pages }
        ensures unused { IsUnusedAbove self.now result }
    {
        match &self.words {
            Kept::Row(_) => self.profile.pages,
            Kept::Paged(words) => words.open_pages(),
        }
    }

    /// Writes a word of the region, and leaves each other one as it was. It costs one store, and where it is the first to an unused page, the
    /// words of the pages up to that one.
    #[inline]
    pub fn set_word(&mut self, word: Word, value: u64)
        requires { IsWordOf (profile_of self.old) word }
        ensures profile { profile_of self.new ≡ profile_of self.old }
        ensures words { (other : TheWord) → IsWordOf (profile_of self.old) other → word_in self.new other ≡ (if same_word word other then value else word_in self.old other) }
    {
        match &mut self.words {
            Kept::Row(row) => row.set(word, value),
            Kept::Paged(words) => words.set(word, value),
        }
    }
}
