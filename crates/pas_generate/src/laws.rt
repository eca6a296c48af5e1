//! What all generated traces have in common, and what the reader of traces says of them. Each law is the contract of
//! an empty function.
ghost use Rattle.std.specs.{Prelude.{ℕ, ◌≡◌, ◌≢◌, Ok, Err}, Global.Global};
ghost use Rattle.pas_generate.specs.{Requests.{IsValid, request_from}, Traces.{IsJob, trace_text}, Meant.meant};
ghost use Rattle.pas_trace.specs.{Plans.{parsed, IsPlanOf}, declared.{fault.TraceFault.TraceFault, plan.Plan.Plan}};

/// Wherever the draws stand, the next request is one that a trace may have: of one of the six heaps, no larger than the
/// smallest region, and aligned to 16, 32 or 64 bytes.
pub fn requests_are_valid()
    ensures { (x : ℕ) → IsValid (request_from x) }
{}

/// The text of each valid job, whatever its seed, is read as what the job means: a region of six heaps with so many
/// pages and threads, the shared heap, and each operation in its order, with a new phase after each pass. So the text
/// has no fault, and there is a plan of it.
pub fn generated_texts_are_read()
    ensures read { (seed ops threads pages : ℕ) → IsJob ops threads pages → parsed (trace_text seed ops threads pages) ≡ Ok (meant seed ops threads pages) }
    ensures faultless { (seed ops threads pages : ℕ) → IsJob ops threads pages → (fault : TraceFault) → parsed (trace_text seed ops threads pages) ≢ Err fault }
    ensures planned { (heap : Global) (seed ops threads pages : ℕ) → IsJob ops threads pages → (plan : Plan) × IsPlanOf (trace_text seed ops threads pages) plan }
{}
