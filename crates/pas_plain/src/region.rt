//! A region at which one actor works at a time.
ghost use Rattle.std.specs.Prelude.{◌≡◌, ◌≤◌, ◌<◌, false, ℕ, IsTrue};
ghost use Rattle.pas_profile.specs.Profiles.{IsValid};
ghost use Rattle.pas_bits.specs.Masks.{is_set};
ghost use Rattle.pas_steps.specs.{Paged.value_in, Told.free_by};
ghost use Rattle.pas_plain.specs.Short.{HasNote, IsShortPage, GotNone};

use crate::near::NearWords;
use crate::short::ShortPages;
use pas_bits::Mask4;
use pas_profile::{Layout, NoMemory, Profile, Word};
use pas_steps::effect::{new_value, target};
use pas_steps::{State, Step};
use std::alloc::Global;

/// A region whose words stand in memory page by page, as they are written. One actor works at it at a time. It keeps notes of pages that are short
/// of free grains, from when they are noted until grains are put back.
#[derive(Drop)]
pub struct PlainRegion {
    profile: Profile,
    words: NearWords,
    short: ShortPages,
    ghost valid: { IsValid profile },
    ghost pages: { words.words.layout.pages ≡ profile.pages },
    ghost heaps: { words.words.layout.heaps ≡ profile.heaps },
    ghost short_are: { (grains align p : ℕ) → HasNote short grains align p → IsShortPage profile.pages words.words grains align p },
}

/// The grains of a page that are free.
fn free_grains(words: &NearWords, page: u32) -> Mask4
    requires { (1 ≤ page) × (page ≤ words.now.words.layout.pages) }
    ensures { (g : ℕ) → g < 256 → is_set result g ≡ free_by (value_in words.now.words) page g }
{
    Mask4([
        words.get(Word::Free(page, 0)),
        words.get(Word::Free(page, 1)),
        words.get(Word::Free(page, 2)),
        words.get(Word::Free(page, 3)),
    ])
}

/// Whether a page stays short of what it was short of, where a free word of it had the old value and has the new one: no grain got free, and some
/// grain is free.
#[inline(never)]
fn stays_short(words: &NearWords, page: u32, old: u64, new: u64) -> bool
    requires { (1 ≤ page) × (page ≤ words.now.words.layout.pages) }
    ensures { IsTrue result → GotNone old new × (((g : ℕ) → g < 256 → free_by (value_in words.now.words) page g ≡ false) → ⊥) }
{
    new & !old == 0 && !free_grains(words, page).is_empty()
}

impl PlainRegion {
    ghost use Rattle.pas_profile.specs.{Profiles.{IsPage, IsWordOf}, declared.word.Word.Word as TheWord};
    ghost use Rattle.pas_bits.specs.Bits.{has_bit};
    ghost use Rattle.pas_steps.specs.{Effects.target as target_word, Ranges.IsRanged, States.{profile_of as the_profile_of, word_in}};
    ghost use Rattle.std.specs.Prelude.{IfOk, [], ◌+◌, ◌*◌, ◌/◌, true};
    ghost use Rattle.pas_plain.specs.Plain.{profile_of, word_at, RegionStands, IsExchanged};

    /// A region that nobody used yet.
    pub(crate) fn opened(alloc: Global, profile: Profile) -> Result<PlainRegion, NoMemory>
        requires { IsValid profile }
        ensures profile { IfOk result (λ region. profile_of region ≡ profile) }
        ensures opening { IfOk result (λ region. RegionStands region []) }
    {
        let words = NearWords::opened(alloc, Layout::new(&profile))?;
        let short = ShortPages::opened(alloc)?;
        Ok(PlainRegion {
            profile,
            words,
            short,
        })
    }

    /// The state of the region. It keeps the region's own vectors.
    pub(crate) fn into_state(self) -> State
        ensures profile { the_profile_of result ≡ profile_of self }
        ensures words { (w : TheWord) → word_in result w ≡ word_at self w }
    {
        State::of_paged(self.profile, self.words.into_words())
    }

    /// The profile of the region.
    #[inline]
    pub fn profile(&self) -> &Profile
        ensures { result.now ≡ profile_of self.now }
    {
        &self.profile
    }

    /// The value of a word.
    #[inline(always)]
    pub(crate) fn word(&self, word: Word) -> u64
        requires { IsWordOf (profile_of self.now) word }
        ensures { result ≡ word_at self.now word }
    {
        self.words.get(word)
    }

    /// Puts the new value of the step's word in the place of the old one, for an actor that knows this epoch.
    #[inline(always)]
    pub(crate) fn exchange(&mut self, epoch: u64, step: Step) -> u64
        requires of_region { IsWordOf (profile_of self.old) (target_word step) }
        requires ranged { IsRanged step }
        ensures { IsExchanged self.old self.new epoch step result }
    {
        let word = target(step);
        let old = self.words.get(word);
        let new = new_value(epoch, step, old);
        self.words.set(word, new);
        if let Word::Free(page, _) = word {
            if self.short.has(page) && !stays_short(&self.words, page, old, new) {
                self.short.forget(page);
            }
        }
        old
    }

    /// The pages of a block that are noted as short of such a run.
    #[inline]
    pub(crate) fn short_pages(&self, grains: u16, align: u16, block: u32) -> u64
        requires { block ≤ (profile_of self.now).pages / 64 }
        ensures { (b : ℕ) → b < 64 → has_bit result b ≡ true → IsShortPage (profile_of self.now).pages self.now.words.words grains align (64 * block + b) }
    {
        self.short.pages(grains, align, block)
    }

    /// Notes the page as short of such a run, where it is.
    pub(crate) fn note_short(&mut self, grains: u16, align: u16, page: u32)
        requires { IsPage (profile_of self.old) page }
        ensures profile { self.new.profile ≡ self.old.profile }
        ensures words { self.new.words ≡ self.old.words }
    {
        if grains >= 1 && grains <= 256 && align >= 1 && align <= 256 {
            let free = free_grains(&self.words, page);
            if !free.is_empty() && free.first_run(grains, align).is_none() {
                self.short.note(grains, align, page);
            }
        }
    }
}
