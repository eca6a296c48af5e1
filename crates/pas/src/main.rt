//! The program `pas`: reads standard input, writes standard output, and ends with the status of the call.
#![tactic(auto)]

ghost use Rattle.std.specs.{Prelude.{◌≡◌, ◌≢◌, ◌⊎◌, IfOk, OnErr, drop, map}, String.string_bytes, Vec.Iter.into_iter_items};
ghost use Rattle.pas_calls.specs.Outputs.{texts_of, HasFailed, IsAccepted, IsCutOff, IsStatus, IsWriting, IsWritten};

use pas_io::real::{RealSink, RealSource};
use pas_io::{Sink, Source};
use pas_top::pas_main;
use std::alloc::{AllocError, Global};
use std::env;
use std::env::Args;
use std::io::ErrorKind;
use std::process::ExitCode;
use std::sync::Wait;
use std::thread::Threads;

/// The status where memory is wanting.
const NO_MEMORY: u8 = 5;

fn main(rt: HostRuntime) -> ExitCode {
    let mut source = RealSource::new(rt.stdin());
    let mut sink = RealSink::new(rt.stdout());
    let called = words(&rt).and_then(|words| call(&rt, rt.alloc(), &words, &mut source, &mut sink));
    ExitCode::from(status(called))
}

/// The status of a call, or that of wanting memory where the call couldn't be made.
fn status(called: Result<u8, AllocError>) -> u8
    ensures called { IfOk called (λ status. result ≡ status) }
    ensures memory { OnErr called (result ≡ 5) }
{
    called.unwrap_or(NO_MEMORY)
}

/// The words after the program's name. Where one isn't text there are none, since none of the calls has such a word.
fn words(rt: &HostRuntime) -> Result<Vec<String>, AllocError> {
    match env::args(rt) {
        Ok(arguments) => after_name(rt.alloc(), arguments),
        Err(error) if error.kind() == ErrorKind::OutOfMemory => Err(AllocError),
        Err(_) => Ok(Vec::new(rt.alloc())),
    }
}

/// The arguments without the first one, which is the program's name.
fn after_name(alloc: Global, arguments: Args) -> Result<Vec<String>, AllocError>
    ensures { IfOk result (λ words. words.items ≡ drop 1 (into_iter_items arguments)) }
{
    arguments.skip(1).collect(alloc)
}

/// The texts of the words.
fn lent<'a>(alloc: Global, words: &'a [String]) -> Result<Vec<&'a str>, AllocError>
    ensures { IfOk result (λ lent. texts_of lent.items ≡ map string_bytes words.now) }
{
    words.iter().map(|word| word.as_str()).collect(alloc)
}

/// Calls with these words, and answers the status of the call. Where memory was wanting for the call nothing was read and nothing written.
fn call<R: Threads + Wait + Sync, S: Source, K: Sink>(
    rt: &R,
    alloc: Global,
    words: &[String],
    source: &mut S,
    sink: &mut K,
) -> Result<u8, AllocError>
    ensures status { IfOk result IsStatus }
    ensures written { IfOk result (λ status. IsWriting status → IsWritten (map string_bytes words.now) (S.rest source.old) (K.held sink.old) (K.held sink.new) status) }
    ensures usage { IfOk result (λ status. (IsAccepted (map string_bytes words.now) → ⊥) → (source.new ≡ source.old) × ((status ≡ 2) ⊎ (status ≡ 4))) }
    ensures source_failed { IfOk result (λ status. status ≡ 3 → HasFailed (S.rest source.old) (S.rest source.new) (S.faults source.old) (S.faults source.new) × (sink.new ≡ sink.old)) }
    ensures sink_failed { IfOk result (λ status. status ≡ 4 → IsCutOff (map string_bytes words.now) (S.rest source.old) (K.held sink.old) (K.held sink.new) (K.faults sink.old) (K.faults sink.new)) }
    ensures source_sound { IfOk result (λ status. status ≢ 3 → S.faults source.new ≡ S.faults source.old) }
    ensures sink_sound { IfOk result (λ status. status ≢ 4 → K.faults sink.new ≡ K.faults sink.old) }
    ensures memory { OnErr result ((source.new ≡ source.old) × (sink.new ≡ sink.old)) }
{
    let words = lent(alloc, words)?;
    Ok(pas_main(rt, alloc, &words, source, sink))
}
