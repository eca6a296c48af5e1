//! The words of a region in a row.
ghost use Rattle.std.specs.Prelude.{◌≡◌, vec_len};
ghost use Rattle.pas_profile.specs.Layouts.{words_of};

use pas_profile::{Layout, Word};

/// Words in a row, each at its place by the layout.
#[derive(Drop)]
pub struct WordRow {
    layout: Layout,
    words: Vec<u64>,
    ghost sized: { vec_len words ≡ words_of layout.pages layout.heaps },
}

impl WordRow {
    ghost use Rattle.std.specs.Prelude.{if◌then◌else◌};
    ghost use Rattle.pas_profile.specs.{Profiles.IsWordIn, Layouts.same_word, declared.word.Word.Word as TheWord};
    ghost use Rattle.pas_steps.specs.Keeping.{value_in_row};

    /// These words, each at its place by the layout.
    pub(crate) fn new(layout: Layout, words: Vec<u64>) -> WordRow
        requires { vec_len words ≡ words_of layout.pages layout.heaps }
        ensures layout { result.layout ≡ layout }
        ensures words { result.words ≡ words }
    {
        WordRow { layout, words }
    }

    /// The value of a word.
    #[inline]
    pub(crate) fn get(&self, word: Word) -> u64
        requires { IsWordIn self.now.layout.pages self.now.layout.heaps word }
        ensures { result ≡ value_in_row self.now word }
    {
        self.words[self.layout.index(word)]
    }

    /// Writes a word, and leaves each other one as it was.
    #[tactic(auto, using(crate::proofs::Running::place_written))]
    #[inline]
    pub(crate) fn set(&mut self, word: Word, value: u64)
        requires { IsWordIn self.old.layout.pages self.old.layout.heaps word }
        ensures layout { self.new.layout ≡ self.old.layout }
        ensures words { (other : TheWord) → IsWordIn self.old.layout.pages self.old.layout.heaps other → value_in_row self.new other ≡ (if same_word word other then value else value_in_row self.old other) }
    {
        let at = self.layout.index(word);
        self.words[at] = value;
    }
}
