//! What the definitions of the checker promise. Each law is the contract of an empty function.
ghost use Rattle.std.specs.Prelude.{List, ℕ, ◌≡◌, ◌+◌, ◌++◌, ◌∷◌, [], length, map, true};
ghost use Rattle.pas_profile.specs.declared.{event.{Event.Event, Why.Why}, profile.Profile.Profile, entry.Entry.Entry};
ghost use Rattle.pas_profile.specs.declared.word.Word.TheVariants as Word;
ghost use Rattle.pas_machine.specs.Machine.{Run, Admits};
ghost use Rattle.pas_steps.specs.{Desks.triples, Lists.{Whole, word_after}, Kinds.{Kinds, Ticking, Only, apart}, declared.step.Made.Made};
ghost use Rattle.pas_check.specs.{Lines.lines_in, States.{Due, Stand, Task}, Calls.Differs, Begins.{after_task, past_outcomes, ready}, Bounds.FitsFirst};
ghost use Rattle.pas_check.specs.{Bounds.{FitsNext, IsSmall}, Going.{AreAlike, SoFar}, Ranges.Fits, Takes.{MayRefuse, IsEventOf, Takes, TakesDue}};
ghost use Rattle.pas_check.specs.{Accepted.{IsDone, IsStopped, IsVerdict, IsWhole}, declared.verdict.Verdict.Verdict};
ghost use Rattle.pas_trace.specs.declared.plan.Plan.{Plan};
ghost use Rattle.pas_records.specs.{Lines.{line_of, lines_of}, declared.record.Record.Record};

/// No two records whose numbers fit their places have one line. So a line of a transcript says one thing.
#[tactic(auto, using(crate::proofs::Readings::one_line))]
pub fn lines_are_apart()
    ensures { (r q : Record) → Fits r → Fits q → line_of r ≡ line_of q → r ≡ q }
{}

/// A transcript of a plan has one verdict: it isn't both accepted and refused, and the first line that isn't allowed is one.
#[tactic(auto, using(crate::proofs::Verdicts::one_verdict))]
pub fn verdicts_are_one()
    ensures { (plan : Plan) (text : List ℕ) (v w : Verdict) → IsVerdict plan text v → IsVerdict plan text w → v ≡ w }
{}

/// The lines of records are the lines of their text, one for each, whatever follows.
#[tactic(auto, using(crate::proofs::Cuts::cut_records))]
pub fn records_are_lines()
    ensures { (rs : List Record) (rest : List ℕ) → lines_in (lines_of rs ++ rest) ≡ map line_of rs ++ lines_in rest }
{}

/// The event of an entry of a log is one. In a run the end of its name is that event, where it may come and the block hasn't another room than the entry names;
/// and so is each refusal of it that may come, for a reason that the entry may have.
pub fn entries_have_one_event()
    ensures one { (s : Stand) (k : ℕ) (entry : Entry) (e g : Event) → IsEventOf s k entry e → IsEventOf s k entry g → e ≡ g }
    ensures end { (f : Profile) (s : Stand) (k : ℕ) (entry : Entry) → Run f s.events → Admits f s.events (Event.End k entry.name s.epoch)
        → (Differs s.events entry → ⊥) → IsEventOf s k entry (Event.End k entry.name s.epoch) }
    ensures reject { (f : Profile) (s : Stand) (k : ℕ) (entry : Entry) (why : Why) → MayRefuse entry why → Admits f s.events (Event.Reject k entry.name why)
        → IsEventOf s k entry (Event.Reject k entry.name why) }
{}

/// Steps that aren't ticks leave the epoch as it is.
#[tactic(auto, using(crate::proofs::Ticks::epoch_kept))]
pub fn ticks_alone_raise()
    ensures { (ks : Kinds) → apart ks (Ticking ∷ []) ≡ true → (k : ℕ) (steps : List Made) (l : Whole) → Only ks steps
        → word_after (triples k steps ++ l) Word.Epoch ≡ word_after l Word.Epoch }
{}

/// How a check goes on and ends. Where a line may come and leads to one state, the check stands there; a state that no line tells from it will do as
/// well, as the one in which the next task is begun. A line that can't be taken is the first that isn't allowed; and at the end of the lines the
/// transcript is whole, or ends too early.
pub fn checks_go_on()
    ensures first { (f : Profile) (s : Stand) → SoFar f s [] s }
    ensures line { (f : Profile) (s next : Stand) (line : List ℕ) → Takes f s line next → ((other : Stand) → Takes f s line other → other ≡ next)
        → (start : Stand) (seen : List (List ℕ)) → SoFar f start seen s → SoFar f start (seen ++ line ∷ []) next }
    ensures none { (f : Profile) (start s t : Stand) (seen : List (List ℕ)) → AreAlike f s t → SoFar f start seen s → SoFar f start seen t }
    ensures begun { (f : Profile) (s : Stand) (t : Task) (ts : List Task) → s.due ≡ [] → s.left ≡ t ∷ ts → AreAlike f s (after_task f s t ts) }
    ensures refused { (f : Profile) (start s : Stand) (seen : List (List ℕ)) (line : List ℕ) (rest : List (List ℕ)) → SoFar f start seen s
        → ((next : Stand) → Takes f s line next → ⊥) → IsStopped f start (seen ++ line ∷ rest) (length seen + 1) }
    ensures whole { (f : Profile) (start s : Stand) (lines : List (List ℕ)) → SoFar f start lines s → IsDone f s → IsWhole f start lines }
    ensures early { (f : Profile) (start s : Stand) (lines : List (List ℕ)) → SoFar f start lines s → (IsDone f s → ⊥) → IsStopped f start lines (length lines + 1) }
{}

/// A line that answers what is due leads to one state, where the events so far are a run of few blocks at small epochs, and the numbers of a request
/// fit. So does a line that may come next, where what is due after the outcomes of a pass is no outcome, and its numbers fit: none has the line of what
/// follows its pass. So it is never open which of two answers a line gave.
#[tactic(auto, using(crate::proofs::OneNext::one_next, crate::proofs::OneNext::one_takes))]
pub fn lines_lead_on()
    ensures due { (f : Profile) (s : Stand) → IsSmall f s → (due : List Due) → FitsFirst f due
        → (line : List ℕ) (a b : Stand) → TakesDue f s due line a → TakesDue f s due line b → a ≡ b }
    ensures next { (f : Profile) (s : Stand) → IsSmall f s → IsSmall f (ready f s) → FitsNext f (ready f s).due → past_outcomes (ready f s).due ≡ (ready f s).due
        → (line : List ℕ) (a b : Stand) → Takes f s line a → Takes f s line b → a ≡ b }
{}
