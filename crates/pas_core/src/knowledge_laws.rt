//! What an actor may rely on after every legal list of steps, whoever made them. Each law is the contract of an empty function.
ghost use Rattle.std.specs.Prelude.{ℕ, ◌≡◌, ◌≢◌, ◌≤◌, ◌/◌, ◌%◌, true, Some};
ghost use Rattle.pas_bits.specs.Bits.{has_bit};
ghost use Rattle.pas_profile.specs.{Profiles.IsValid, declared.profile.Profile.Profile};
ghost use Rattle.pas_profile.specs.declared.word.Word.TheVariants as Word;
ghost use Rattle.pas_steps.specs.{Effects.{free_word_at, life_word_at}, Agreement.Agrees, Views.{has_right, known_deed, known_free, knows_backed, known_life}};
ghost use Rattle.pas_steps.specs.{Views.{known_stamp, epoch_of}, Lists.{Triple, Whole, part, word_after, IsNext, Legal}};

/// The answer of a step that may come next agrees with what its actor holds, has, knows and did: a word that is known is read again, a
/// grain that is held isn't free and no block lives at it, a page whose right the actor has is neither offered nor parked, and a page
/// that is offered has the deed of that directory. A page that the actor once read as backed has a deed, and so has each page of a block
/// that it ended, which lay in the region on pages of one heap. A block that it once read as live, and that still lives, has the length
/// that it had then. Turns are below 2^37, epochs and stamps below 2^40, and each word has only values of its kind.
#[tactic(auto, using(crate::proofs::Nexts::answer_agrees))]
pub fn answers_agree()
    ensures { (f : Profile) (l : Whole) → IsValid f → Legal f l → (t : Triple) → IsNext f l t → Agrees f (part t.actor l) t.made.step t.made.answer }
{}

/// At most one actor has the right of a page, and only where the page has a deed.
#[tactic(auto, using(crate::proofs::Rights::one_has_right, crate::proofs::Rights::right_has_deed))]
pub fn one_right()
    ensures one { (f : Profile) (l : Whole) → Legal f l → (j k page : ℕ) → has_right (part j l) page ≡ true → has_right (part k l) page ≡ true → j ≡ k }
    ensures deed { (f : Profile) (l : Whole) → Legal f l → (k page : ℕ) → has_right (part k l) page ≡ true → word_after l (Word.Deed page) ≢ 0 }
{}

/// What an actor knows is so now, whatever the others did since: the deed of a page (from its deed word, or from a bit that was set in
/// the eligible vector of its directory), that a page is backed and what its stamp is, that a grain is free, whose page's right the actor has then, and the
/// life word of a grain. The epoch is at least the one that it read.
#[tactic(auto, using(crate::proofs::Rights::backed_known, crate::proofs::Rights::free_known, crate::proofs::Rights::free_known_has_right, crate::proofs::Lives::stamp_known, crate::proofs::Lives::epoch_known))]
pub fn known_is_true()
    ensures deed { (f : Profile) (l : Whole) → Legal f l → (k page : ℕ) → known_deed (part k l) page ≢ 0 → word_after l (Word.Deed page) ≡ known_deed (part k l) page }
    ensures backed { (f : Profile) (l : Whole) → IsValid f → Legal f l → (k page : ℕ) → knows_backed (part k l) page ≡ true → word_after l (Word.Backed page) ≡ 1 }
    ensures free { (f : Profile) (l : Whole) → Legal f l → (k g : ℕ) → known_free (part k l) g ≡ true → has_bit (word_after l (free_word_at g)) (g % 64) ≡ true }
    ensures right { (f : Profile) (l : Whole) → Legal f l → (k g : ℕ) → known_free (part k l) g ≡ true → has_right (part k l) (g / 256) ≡ true }
    ensures life { (f : Profile) (l : Whole) → IsValid f → Legal f l → (k g w : ℕ) → known_life (part k l) g ≡ Some w → word_after l (life_word_at g) ≡ w }
    ensures stamp { (f : Profile) (l : Whole) → IsValid f → Legal f l → (k page s : ℕ) → known_stamp (part k l) page ≡ Some s → word_after l (Word.Stamp page) ≡ s }
    ensures epoch { (f : Profile) (l : Whole) → Legal f l → (k : ℕ) → epoch_of (part k l) ≤ word_after l Word.Epoch }
{}

/// Each grain of a page without a deed is free.
#[tactic(auto, using(crate::proofs::Rights::free_without_deed))]
pub fn untouched()
    ensures { (f : Profile) (l : Whole) → Legal f l → (g : ℕ) → word_after l (Word.Deed (g / 256)) ≡ 0 → has_bit (word_after l (free_word_at g)) (g % 64) ≡ true }
{}
