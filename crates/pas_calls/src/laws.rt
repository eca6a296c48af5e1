//! What the transcripts of `order` are to a checker of transcripts. Each law is the contract of an empty function.
ghost use Rattle.std.specs.Prelude.{ℕ, List, ◌≡◌};
ghost use Rattle.pas_trace.specs.{Plans.IsPlanOf, declared.plan.Plan.Plan};
ghost use Rattle.pas_answers.specs.Ways.{InOrder};
ghost use Rattle.pas_check.specs.{Accepted.{IsAccepted, IsVerdict}, declared.verdict.Verdict.Verdict};
ghost use Rattle.pas_check.specs.declared.verdict.Verdict.TheVariants as Verdict;
ghost use Rattle.pas_calls.specs.Outputs.{IsReplayed};

/// Every transcript that the contract of `order` allows is accepted: whatever text is that of a replay of the bytes in the order of their text, it is an
/// accepted transcript of each plan of the bytes. So its one verdict is yes, and what has a first line that isn't allowed no run of `order` writes.
pub fn transcripts_are_accepted()
    ensures accepted { (bytes text : List ℕ) → IsReplayed InOrder bytes text → (plan : Plan) → IsPlanOf bytes plan → IsAccepted plan text }
    ensures verdict { (bytes text : List ℕ) → IsReplayed InOrder bytes text → (plan : Plan) → IsPlanOf bytes plan → (v : Verdict) → IsVerdict plan text v → v ≡ Verdict.Yes }
{}
