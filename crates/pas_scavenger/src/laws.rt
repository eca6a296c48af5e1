//! What the steps for one page show of its outcome. Each law is the contract of an empty function.
ghost use Rattle.std.specs.Prelude.{ℕ, ◌≢◌, List};
ghost use Rattle.pas_profile.specs.declared.event.Outcome.TheVariants.{InUse, Unbacked};
ghost use Rattle.pas_steps.specs.{Past.Once, Views.all_ones, declared.step.Made.Made};
ghost use Rattle.pas_scavenger.specs.{Evidence.{UsedByOthers, UnbackedHere}, Pages.ExamineSteps};

/// A page is called in use only by a free word of which the pass held no grain when it read it.
pub fn used_by_others()
    ensures { (age epoch page word value : ℕ) (steps : List Made) → ExamineSteps age epoch page (InUse word value) steps → (value ≢ all_ones) × Once (UsedByOthers page word value) steps }
{}

/// A page is unbacked only while all its grains are held, by a stamp that was read before and is old enough for the epoch.
#[tactic(auto, using(crate::proofs::Examinations::unbacked_when_old))]
pub fn unbacked_when_old()
    ensures { (age epoch page : ℕ) (steps : List Made) → ExamineSteps age epoch page Unbacked steps → Once (UnbackedHere age epoch page) steps }
{}
