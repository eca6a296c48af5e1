//! The call `run`.
ghost use Rattle.std.specs.Prelude.{◌≡◌, ◌≢◌, ◌+◌, ◌⊎◌, ℕ, List, [], Some};
ghost use Rattle.pas_io.specs.{Inputs.Takes, Reached.StopsAtEnd};
ghost use Rattle.pas_io.specs.declared.reach.Reach.TheVariants as Reach;
ghost use Rattle.pas_answers.specs.Ways.{OnThreads};
ghost use Rattle.pas_calls.specs.{Ends.EndsReplay, Outputs.most_bytes};

use crate::outcome::{replayed_on_threads, tell_outcome};
use pas_calls::judging::TOO_LONG;
use pas_io::whole::{Input, Stop, read_all};
use pas_io::{Sink, Source};
use pas_profile::NoMemory;
use pas_profile::limits::MOST_BYTES;
use pas_telling::{Manner, tell};
use std::alloc::Global;
use std::sync::Wait;
use std::thread::Threads;

/// Reads the source to its end, replays the trace that it gives with each thread's operations in a thread of their own, and writes the lines of what was said and
/// then the report; or writes the first fault. The status is 0 where the replay was written and 1 where the first fault was; 3 where a read failed, 4 where a
/// write failed, 5 where the program was out of memory, and 6 where the input is too long. The replay has ended before anything is written.
pub(crate) fn run_input<R: Threads + Wait + Sync, S: Source, K: Sink>(
    rt: &R,
    alloc: Global,
    source: &mut S,
    sink: &mut K,
) -> u8
    ensures ends { EndsReplay OnThreads (S.rest source.old) (S.rest source.new) (S.faults source.old) (S.faults source.new) (K.held sink.old) (K.held sink.new) (K.faults sink.old) (K.faults sink.new) result }
    ensures taken { (bytes : List ℕ) → S.rest source.old ≡ Some bytes → Takes bytes (S.rest source.new) (most_bytes + 1) }
    ensures ended { (bytes : List ℕ) → S.rest source.old ≡ Some bytes → (result ≡ 0) ⊎ (result ≡ 1) ⊎ (result ≡ 8) → S.rest source.new ≡ Some [] }
    ensures stops { S.reach source.old ≡ Reach.Within → StopsAtEnd (S.reach source.new) }
    ensures read_up { S.reach source.old ≡ Reach.Within → (result ≡ 0) ⊎ (result ≡ 1) ⊎ (result ≡ 8) → S.reach source.new ≡ Reach.AtEnd }
    ensures source_sound { result ≢ 3 → S.faults source.new ≡ S.faults source.old }
    ensures unheard { (result ≡ 3) ⊎ (result ≡ 5) → sink.new ≡ sink.old }
{
    let bytes = match read_all(alloc, source, MOST_BYTES) {
        Ok(Input::Whole(bytes)) => bytes,
        Ok(Input::TooLong) => return tell(sink, TOO_LONG, 6),
        Err(Stop::Fault) => return 3,
        Err(Stop::Memory) => return 5,
    };
    match replayed_on_threads(rt, alloc, bytes) {
        Ok((outcome, spent)) => tell_outcome(rt, alloc, Manner::OnThreads, sink, outcome, spent),
        Err(NoMemory) => 5,
    }
}
