//! Times the operations of a trace alone: from a plan and a kit that are ready to the records and the region's last state.
//!
//! Standard input is the trace. The word behind `replay` is `order` or `run`: in the order of the text, or each thread's operations in a
//! thread of their own. It prints how many records came, and with one more word also the nanoseconds by the clock on the wall. Where the
//! words are others, the input is no trace or memory is wanting, it prints `no replay`.

mod replaying;

use crate::replay::replaying::{Timed, Way, time_replay};
use pas_io::Source;
use pas_io::whole::{Input, read_all};
use std::alloc::Global;
use std::env::Args;
use std::io;
use std::iter::Skip;
use std::sync::Wait;
use std::thread::Threads;
use std::time::Clock;

/// The most bytes of a trace.
const MOST_BYTES: usize = 16_777_216;

/// The way that the word names.
fn way_of(word: &str) -> Option<Way> {
    match word {
        "order" => Some(Way::InOrder),
        "run" => Some(Way::OnThreads),
        _ => None,
    }
}

/// The replay of what the source gives in this way. None where it is no trace, or memory is wanting.
fn replayed<R: Clock + Threads + Wait + Sync, S: Source>(
    rt: &R,
    alloc: Global,
    source: &mut S,
    way: Way,
) -> io::Result<Option<Timed>> {
    match read_all(alloc, source, MOST_BYTES) {
        Ok(Input::Whole(text)) => time_replay(rt, alloc, &text, way),
        _ => Ok(None),
    }
}

/// Prints what the replay of what the source gives comes to, by the words behind `replay`.
pub fn print<R: Clock + Print + Threads + Wait + Sync, S: Source>(
    rt: &R,
    alloc: Global,
    source: &mut S,
    mut words: Skip<Args>,
) -> io::Result<()> {
    let way = words.next().and_then(|word| way_of(word.as_str()));
    let is_shown = words.next().is_some();
    let Some(way) = way else {
        return println!(rt; "no replay");
    };
    let Some(Timed { records, took }) = replayed(rt, alloc, source, way)? else {
        return println!(rt; "no replay");
    };
    if is_shown {
        return println!(rt; "records {records} nanoseconds {}", took.as_nanos());
    }
    println!(rt; "records {records}")
}
