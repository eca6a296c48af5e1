//! What holds of a shared region, whichever threads its actors run in. Each law is the contract of an empty function.
ghost use Rattle.std.specs.Prelude.{ℕ, List};
ghost use Rattle.pas_profile.specs.{Profiles.IsValid, declared.profile.Profile.Profile};
ghost use Rattle.pas_steps.specs.{declared.state.State.State, Lists.visible};
ghost use Rattle.pas_shared.specs.{declared.{rule.Roster.Roster, pass.SharedPass.SharedPass}, Kept.{IsGood, NoneIsEarly}, Passes.EndsWith};
ghost use Rattle.pas_shared.specs.Ruled.{AreAfterOneList};

/// Between any two steps of any actors the words are those after one legal list, whose part of each actor is that actor's own list: that is
/// the rule of the table. After such a list each grain and each right is in one place, what each actor knows is true, no end of a block
/// is past a stamp that its page already has, no page is forgotten, and the events are a run of the machine that the words show.
pub fn between_steps()
    ensures { (f : Profile) (words : List ℕ) (rosters : List Roster) → IsValid f → (h : AreAfterOneList f words rosters) → IsGood f h.whole }
{}

/// So it is with the list that the words of a closed region are after.
pub fn closed_words()
    ensures { (f : Profile) (passes : List SharedPass) (state : State) → IsValid f → (h : EndsWith f passes state) → IsGood f h.after.whole }
{}

/// No page is unbacked before all ends on it are old enough, however late the threads that made the ends write their stamps: neither
/// between two steps, nor in what a closed region did.
#[tactic(auto, using(crate::proofs::Ruling::none_is_early))]
pub fn no_early_unback()
    ensures between { (f : Profile) (words : List ℕ) (rosters : List Roster) → IsValid f → (h : AreAfterOneList f words rosters) → NoneIsEarly f (visible h.whole) }
    ensures closed { (f : Profile) (passes : List SharedPass) (state : State) → IsValid f → (h : EndsWith f passes state) → NoneIsEarly f (visible h.after.whole) }
{}
