//! The call that the program makes.
ghost use Rattle.std.specs.Prelude.{◌≡◌, ◌≢◌, ◌+◌, ◌<◌, ◌≤◌, ◌⊎◌, ℕ, List, [], Some, Ok, Err, length};
ghost use Rattle.pas_io.specs.{Inputs.Takes, Told.Rose, Reached.StopsAtEnd};
ghost use Rattle.pas_io.specs.declared.reach.Reach.TheVariants as Reach;
ghost use Rattle.pas_trace.specs.{Plans.{IsPlanOf, parsed}, declared.{plan.Plan.Plan, fault.TraceFault.TraceFault}};
ghost use Rattle.pas_check.specs.{Inputs.trace_in, declared.verdict.Verdict.Verdict};
ghost use Rattle.pas_telling.specs.declared.manner.Manner.{Manner};
ghost use Rattle.pas_calls.specs.{Judgements.{IsJudged, verdict_status}, OneText.WritesTextOf, Outputs.{most_bytes, texts_of, IsReplaying, IsChecking}};
ghost use Rattle.pas_calls.specs.Outputs.{ReadsInput, IsGen, IsAccepted, IsStatus, IsWriting, IsWritten, HasFailed, IsCutOff};

use crate::running::run_input;
use pas_calls::generating::generate;
use pas_calls::judging::check_input;
use pas_calls::ordering::order_input;
use pas_io::{Sink, Source};
use pas_telling::{Call, Manner, Misread, call_of, tell};
use std::alloc::Global;
use std::sync::Wait;
use std::thread::Threads;

const USAGE: &str = "usage: pas order | pas run | pas check | pas gen SEED OPS THREADS PAGES\n";

/// Replays the trace that the source gives and writes its transcript and report, where the words are the one word `order` or `run`: in the
/// order of its text, or with each thread's operations in a thread of their own. With the one word `check` the source gives a trace, then a line that is exactly
/// `transcript`, and then a transcript of `order`: it is judged, and nothing is replayed. With the words `gen SEED OPS THREADS PAGES` replays a
/// generated trace in the order of its text and writes its summary; nothing is read.
///
/// The status is
/// - 0: the transcript and the report, or the summary, or the verdict yes were written. What `order` wrote is the one text of the bytes, a
///   function of them.
/// - 1: the input is no trace, or what stands in the place of its trace is none, and the first fault was written.
/// - 2: the words are others. The usage was written, and nothing was read.
/// - 3: a read failed, before more bytes were taken than an input may have. Nothing was written.
/// - 4: a write failed. A first part of what status 0, 1, 2 or 6 writes was written.
/// - 5: the program was out of memory. Nothing was written.
/// - 6: the input is longer than 16,777,216 bytes, and that was written.
/// - 8: the transcript isn't accepted, and the number of the first line that isn't allowed was written.
///
/// A fault of the source brings 3 and one of the sink 4: with any other status its count is as before. With `order`, `run` and `check` the source was read to
/// its end where the status is 0, 1 or 8. No read is made after one that met the end, and at most 16,777,217 bytes are taken. Nothing is written before the replay or
/// the check has ended, but for the lines of `order`: they are written as they come, once all input is read and all memory is taken.
///
/// Of its calls `run_input` alone may wait, so with other words than `run` each of them returns. Time, of which no clause speaks, is at most in proportion to
/// operations times pages, beside the bytes that come in and go out.
pub fn pas_main<R: Threads + Wait + Sync, S: Source, K: Sink>(
    rt: &R,
    alloc: Global,
    words: &[&str],
    source: &mut S,
    sink: &mut K,
) -> u8
    ensures status { IsStatus result }
    ensures written { IsWriting result → IsWritten (texts_of words.now) (S.rest source.old) (K.held sink.old) (K.held sink.new) result }
    ensures text { IsReplaying Manner.InOrder (texts_of words.now) → (bytes : List ℕ) → S.rest source.old ≡ Some bytes → result ≡ 0
        → WritesTextOf bytes (K.held sink.old) (K.held sink.new) }
    ensures usage { (IsAccepted (texts_of words.now) → ⊥) → (source.new ≡ source.old) × ((result ≡ 2) ⊎ (result ≡ 4)) }
    ensures generated { (seed ops threads pages : ℕ) → IsGen (texts_of words.now) seed ops threads pages
        → (source.new ≡ source.old) × ((result ≡ 0) ⊎ (result ≡ 4) ⊎ (result ≡ 5)) }
    ensures summed { (seed ops threads pages : ℕ) → IsGen (texts_of words.now) seed ops threads pages
        → (Rose (K.faults sink.old) (K.faults sink.new) → ⊥) → (result ≡ 0) ⊎ (result ≡ 5) }
    ensures taken { (bytes : List ℕ) → S.rest source.old ≡ Some bytes → Takes bytes (S.rest source.new) (most_bytes + 1) }
    ensures source_failed { result ≡ 3 → HasFailed (S.rest source.old) (S.rest source.new) (S.faults source.old) (S.faults source.new) × (sink.new ≡ sink.old) }
    ensures sink_failed { result ≡ 4 → IsCutOff (texts_of words.now) (S.rest source.old) (K.held sink.old) (K.held sink.new) (K.faults sink.old) (K.faults sink.new) }
    ensures memory { result ≡ 5 → sink.new ≡ sink.old }
    ensures source_sound { result ≢ 3 → S.faults source.new ≡ S.faults source.old }
    ensures sink_sound { result ≢ 4 → K.faults sink.new ≡ K.faults sink.old }
    ensures ended { ReadsInput (texts_of words.now) → (bytes : List ℕ) → S.rest source.old ≡ Some bytes
        → (result ≡ 0) ⊎ (result ≡ 1) ⊎ (result ≡ 8) → S.rest source.new ≡ Some [] }
    ensures stops { S.reach source.old ≡ Reach.Within → StopsAtEnd (S.reach source.new) }
    ensures read_up { ReadsInput (texts_of words.now) → S.reach source.old ≡ Reach.Within
        → (result ≡ 0) ⊎ (result ≡ 1) ⊎ (result ≡ 8) → S.reach source.new ≡ Reach.AtEnd }

    // Each cause brings its status, but for a fault of the source or the sink, and where the program is out of memory.
    ensures too_long { ReadsInput (texts_of words.now) → (bytes : List ℕ) → S.rest source.old ≡ Some bytes → most_bytes < length bytes
        → (result ≡ 6) ⊎ (result ≡ 3) ⊎ (result ≡ 4) ⊎ (result ≡ 5) }
    ensures faulty { (manner : Manner) → IsReplaying manner (texts_of words.now) → (bytes : List ℕ) → S.rest source.old ≡ Some bytes → length bytes ≤ most_bytes
        → (fault : TraceFault) → parsed bytes ≡ Err fault → (result ≡ 1) ⊎ (result ≡ 3) ⊎ (result ≡ 4) ⊎ (result ≡ 5) }
    ensures complete { (manner : Manner) → IsReplaying manner (texts_of words.now) → (bytes : List ℕ) → S.rest source.old ≡ Some bytes → length bytes ≤ most_bytes
        → (plan : Plan) → IsPlanOf bytes plan
        → (Rose (S.faults source.old) (S.faults source.new) → ⊥) → (Rose (K.faults sink.old) (K.faults sink.new) → ⊥)
        → (result ≡ 0) ⊎ (result ≡ 5) }

    // .. of a check: a fault of the trace, and the verdict on the transcript.
    ensures mistraced { IsChecking (texts_of words.now) → (bytes : List ℕ) → S.rest source.old ≡ Some bytes → length bytes ≤ most_bytes
        → (fault : TraceFault) → parsed (trace_in bytes) ≡ Err fault → (result ≡ 1) ⊎ (result ≡ 3) ⊎ (result ≡ 4) ⊎ (result ≡ 5) }
    ensures judged { IsChecking (texts_of words.now) → (bytes : List ℕ) → S.rest source.old ≡ Some bytes → length bytes ≤ most_bytes
        → (verdict : Verdict) → IsJudged bytes verdict → (result ≡ verdict_status verdict) ⊎ (result ≡ 3) ⊎ (result ≡ 4) ⊎ (result ≡ 5) }
    ensures checked { IsChecking (texts_of words.now) → (bytes : List ℕ) → S.rest source.old ≡ Some bytes → length bytes ≤ most_bytes
        → (plan : Plan) → IsPlanOf (trace_in bytes) plan
        → (Rose (S.faults source.old) (S.faults source.new) → ⊥) → (Rose (K.faults sink.old) (K.faults sink.new) → ⊥)
        → (result ≡ 0) ⊎ (result ≡ 8) ⊎ (result ≡ 5) }
{
    match call_of(alloc, words) {
        Ok(Call::Replay(Manner::InOrder)) => order_input(alloc, source, sink),
        Ok(Call::Replay(Manner::OnThreads)) => run_input(rt, alloc, source, sink),
        Ok(Call::Check) => check_input(alloc, source, sink),
        Ok(Call::Gen(job)) => generate(alloc, job, sink),
        Err(Misread::Usage) => tell(sink, USAGE, 2),
        Err(Misread::Memory) => 5,
    }
}
