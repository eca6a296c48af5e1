//! The words of a region that nobody used yet.
ghost use Rattle.std.specs.Prelude.{◌≡◌, ◌+◌, ◌-◌, ◌*◌, ◌/◌, ◌%◌, ◌^◌, ◌<◌, IfOk, slice_index, slice_set, vec_len};
ghost use Rattle.pas_profile.specs.{Profiles.IsWordIn, Layouts.{index_of, words_of, opening}};

use pas_profile::{Layout, NoMemory, Word};
use std::alloc::Global;

/// Marks all 64 grains of a free word as free, where `number` counts the free words of all pages from 0 on, 4 a page.
fn free_word(words: &mut Vec<u64>, layout: &Layout, number: u32)
    requires sized { vec_len words.old ≡ words_of layout.now.pages layout.now.heaps }
    requires number { number < 4 * layout.now.pages }
    ensures set { words.new.items ≡ slice_set words.old.items (index_of layout.now.pages (Word.Free (number / 4 + 1) (number % 4))) (2 ^ 64 - 1) }
    ensures sized { vec_len words.new ≡ vec_len words.old }
{
    let at = layout.index(Word::Free(number / 4 + 1, (number % 4) as u8));
    words[at] = u64::MAX;
}

/// The words of a region at its opening: all grains are free, and everything else is 0. One pass over the words.
pub fn opening_words(alloc: Global, layout: &Layout) -> Result<Vec<u64>, NoMemory>
    ensures sized { IfOk result (λ words. vec_len words ≡ words_of layout.now.pages layout.now.heaps) }
    ensures values { IfOk result (λ words. (w : Word) → IsWordIn layout.now.pages layout.now.heaps w → slice_index words.items (index_of layout.now.pages w) ≡ opening w) }
{
    let Ok(mut words) = vec![in alloc; 0u64; layout.words()] else {
        return Err(NoMemory);
    };
    for number in 0..4 * layout.pages {
        free_word(&mut words, layout, number);
    }
    Ok(words)
}
