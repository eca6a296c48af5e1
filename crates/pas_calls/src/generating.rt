//! The replay of a generated trace, and its summary.
ghost use Rattle.std.specs.Prelude.{◌≡◌};
ghost use Rattle.pas_calls.specs.Generated.{Generates};

use crate::ordering::outcome_in_order;
use pas_generate::laws::generated_texts_are_read;
use pas_generate::trace_of;
use pas_io::Sink;
use pas_profile::NoMemory;
use pas_telling::{Job, Outcome, summary_of, tell};
use std::alloc::Global;

/// Generates the trace of the job, replays it in the order of its text, and writes the summary. The status is 0, or 4 where
/// the sink failed, or 5 where the program was out of memory. Nothing is written before the replay has ended.
pub fn generate<K: Sink>(alloc: Global, job: Job, sink: &mut K) -> u8
    ensures told { Generates (K.held sink.old) (K.held sink.new) (K.faults sink.old) (K.faults sink.new) job.seed job.ops job.threads job.pages result }
    ensures memory { result ≡ 5 → sink.new ≡ sink.old }
{
    let Ok(text) = trace_of(alloc, job.seed, job.ops, job.threads, job.pages) else {
        return 5;
    };
    generated_texts_are_read();
    match outcome_in_order(alloc, text) {
        Ok(Outcome::Replayed(records, state)) => {
            let summary = summary_of(job.ops, records.as_slice(), &state);
            tell(sink, summary.as_str(), 0)
        }
        Ok(Outcome::Faulty(_)) => unreachable!(),
        Err(NoMemory) => 5,
    }
}
