//! The check of a transcript: from the input to the verdict that is written.
ghost use Rattle.std.specs.Prelude.{◌≡◌, ◌≢◌, ◌+◌, ◌≤◌, ◌⊎◌, ℕ, List, [], Some, IfOk, length};
ghost use Rattle.pas_io.specs.{Inputs.Takes, Told.Tells, Reached.StopsAtEnd};
ghost use Rattle.pas_io.specs.declared.reach.Reach.TheVariants as Reach;
ghost use Rattle.pas_calls.specs.{Outputs.most_bytes, Ends.EndsCheck, Judgements.{IsJudgement, judgement_status, judgement_text, verdict_text}};

use pas_check::{Verdict, check, split};
use pas_io::whole::{Input, Stop, read_all};
use pas_io::{Sink, Source};
use pas_profile::NoMemory;
use pas_profile::limits::MOST_BYTES;
use pas_records::Line;
use pas_records::text::push_field;
use pas_telling::{fault_line, tell};
use pas_trace::{ReadFault, TraceFault, read_trace};
use std::alloc::Global;

pub const TOO_LONG: &str = "input too long\n";

/// What an input comes to under a check.
#[derive(Clone, Copy, Drop)]
pub(crate) enum Judgement {
    /// It has a trace, and this is the verdict on the transcript behind it.
    Judged(Verdict),
    /// It has no trace: the first fault of what stands in its place.
    Faulty(TraceFault),
}

/// Reads the trace of an input and checks the transcript behind it. Nothing is replayed. Beside the input there is memory for the plan, and for what a
/// check knows.
fn judgement_of(alloc: Global, input: &[u8]) -> Result<Judgement, NoMemory>
    requires { length input.now ≤ 16777216 }
    ensures { IfOk result (IsJudgement input.now) }
{
    let parts = split(input);
    let plan = match read_trace(alloc, parts.trace) {
        Ok(plan) => plan,
        Err(ReadFault::Trace(fault)) => return Ok(Judgement::Faulty(fault)),
        Err(ReadFault::NoMemory) => return Err(NoMemory),
    };
    match check(alloc, &plan, parts.transcript) {
        Ok(verdict) => Ok(Judgement::Judged(verdict)),
        Err(NoMemory) => Err(NoMemory),
    }
}

/// The line of a verdict that names a line. It takes no memory.
fn refusal_line(number: u32) -> Line
    ensures { result.bytes ≡ verdict_text (Verdict.No number) }
{
    let mut line = Line::new();
    push_field(&mut line, "no line ", number);
    line.push_str("\n");
    line
}

/// Writes the judgement, and answers its status, or 4 where the sink failed.
fn tell_judgement<K: Sink>(sink: &mut K, judgement: Judgement) -> u8
    ensures { Tells (K.held sink.old) (K.held sink.new) (K.faults sink.old) (K.faults sink.new) (judgement_text judgement) (judgement_status judgement) result }
{
    match judgement {
        Judgement::Judged(Verdict::Yes) => tell(sink, "yes\n", 0),
        Judgement::Judged(Verdict::No(number)) => tell(sink, refusal_line(number).as_str(), 8),
        Judgement::Faulty(fault) => tell(sink, fault_line(fault).as_str(), 1),
    }
}

/// Reads the source to its end, and writes the verdict on the transcript that stands behind the trace in it. The status is 0 where the transcript is accepted
/// and 8 where it isn't; 1 where the trace has a fault, which is written then; 3 where a read failed, 4 where a write failed, 5 where the program was out of
/// memory, and 6 where the input is too long. Nothing is written before the verdict is known.
pub fn check_input<S: Source, K: Sink>(alloc: Global, source: &mut S, sink: &mut K) -> u8
    ensures ends { EndsCheck (S.rest source.old) (S.rest source.new) (S.faults source.old) (S.faults source.new) (K.held sink.old) (K.held sink.new) (K.faults sink.old) (K.faults sink.new) result }
    ensures taken { (bytes : List ℕ) → S.rest source.old ≡ Some bytes → Takes bytes (S.rest source.new) (most_bytes + 1) }
    ensures ended { (bytes : List ℕ) → S.rest source.old ≡ Some bytes → (result ≡ 0) ⊎ (result ≡ 1) ⊎ (result ≡ 8) → S.rest source.new ≡ Some [] }
    ensures stops { S.reach source.old ≡ Reach.Within → StopsAtEnd (S.reach source.new) }
    ensures read_up { S.reach source.old ≡ Reach.Within → (result ≡ 0) ⊎ (result ≡ 1) ⊎ (result ≡ 8) → S.reach source.new ≡ Reach.AtEnd }
    ensures source_sound { result ≢ 3 → S.faults source.new ≡ S.faults source.old }
    ensures unheard { (result ≡ 3) ⊎ (result ≡ 5) → sink.new ≡ sink.old }
{
    let input = match read_all(alloc, source, MOST_BYTES) {
        Ok(Input::Whole(input)) => input,
        Ok(Input::TooLong) => return tell(sink, TOO_LONG, 6),
        Err(Stop::Fault) => return 3,
        Err(Stop::Memory) => return 5,
    };
    match judgement_of(alloc, &input) {
        Ok(judgement) => tell_judgement(sink, judgement),
        Err(NoMemory) => 5,
    }
}
