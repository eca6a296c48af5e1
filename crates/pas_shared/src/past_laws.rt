//! What a past comes to. The law is the contract of an empty function.
ghost use Rattle.std.specs.Prelude.{◌≡◌, ◌++◌, ℕ};
ghost use Rattle.pas_steps.specs.{Views.View, Lists.{Whole, part}};
ghost use Rattle.pas_shared.specs.{Ruled.IsEarlier, Pasts.{HasOwn, StandsAfter}};

/// What was done before a past was told stands before all that the actor does who took it. Whatever list goes on from the past that
/// an actor got when its own list was `v`, as that of the close does: its first steps are those of the past, and what the actor made
/// since stands behind them.
#[tactic(auto, using(crate::proofs::Ruling::stands_after))]
pub fn a_past_is_before()
    ensures { (first whole : Whole) (k : ℕ) (v since : View) → IsEarlier first whole → HasOwn k v first → part k whole ≡ since ++ v → StandsAfter first k since whole }
{}
