//! What one more step does to one order of the actors' lists, and to words in a row. Each law is the contract of an empty function.
ghost use Rattle.std.specs.Prelude.{ℕ, ◌≡◌, List, ◌∷◌, slice_index, slice_set};
ghost use Rattle.pas_profile.specs.{Layouts.index_of, Profiles.IsWordOf, declared.profile.Profile.Profile};
ghost use Rattle.pas_steps.specs.{Effects.{target, new_value}, Views.{View, epoch_of}, Desks.{made, triple}, Lists.{Whole, part, IsNext, Legal}};
ghost use Rattle.pas_steps.specs.declared.step.{Step.Step, Made.Made};
ghost use Rattle.pas_core.specs.{Orders.{IsOneOrder, with_step, ExtendsOnePart}, WordLists.AreWordsAfter};

/// A step that may come next at the end of a legal list gives a legal list, in which just its actor's part has the step. So where each
/// actor keeps its own list, one order of all of them stays one when one actor goes on.
#[tactic(auto, using(crate::proofs::Nexts::extends_one_part, crate::proofs::Nexts::one_order_next))]
pub fn steps_extend_one_part()
    ensures part { (f : Profile) (l : Whole) (k : ℕ) (m : Made) → Legal f l → IsNext f l (triple k m) → ExtendsOnePart f l k m }
    ensures order { (l : Whole) (own : ℕ → View) (k : ℕ) (m : Made) → IsOneOrder l own → IsOneOrder (triple k m ∷ l) (with_step k m own) }
{}

/// Where words in a row are those after a list, they are those after the list with one more step, once the place of the step's word has
/// the step's new value, by the epoch that its actor knows.
pub fn words_follow()
    ensures { (f : Profile) (words : List ℕ) (l : Whole) (e k : ℕ) (s : Step) (n : ℕ) → AreWordsAfter f words l → IsWordOf f (target s) → n ≡ slice_index words (index_of f.pages (target s)) → e ≡ epoch_of (part k l)
        → AreWordsAfter f (slice_set words (index_of f.pages (target s)) (new_value e s n)) (triple k (made s n) ∷ l) }
{}
