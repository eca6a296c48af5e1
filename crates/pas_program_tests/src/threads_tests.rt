//! Replays on threads of one thread, which the program doesn't make.

use crate::traces::{MOST_BYTES, filling, replayed, replayed_on_threads};
use pas_threads::OpenGate;
use std::sync::Wait;
use std::test::Fail;
use std::thread::Threads;

/// Whether a replay of the trace on threads has the records of one in the order of its text.
fn shows_the_same<R: AllocGlobal + Threads + Wait + Sync>(
    rt: &R,
    trace: &[u8],
) -> Result<bool, Fail> {
    if trace.len() > MOST_BYTES {
        return Ok(false);
    }
    let (on_threads, _) = replayed_on_threads(rt, trace, &OpenGate)?;
    let (in_order, _) = replayed(rt.alloc(), trace)?;
    Ok(on_threads.as_slice() == in_order.as_slice())
}

/// Pages, requests and sizes: more slots than a page has, more frees than a log has places, bit-fit blocks, and whole pages.
const FILLINGS: [(u32, u32, u32); 4] = [(2, 86, 48), (1, 65, 16), (4, 9, 2048), (16, 5, 12_288)];

#[test]
fn one_thread_shows_the_same_on_threads(rt: HostRuntime) -> Result<(), Fail> {
    for (pages, requests, size) in &FILLINGS {
        let trace = filling(rt.alloc(), *pages, *requests, *size)?;
        assert!(rt; shows_the_same(&rt, &trace)?);
    }
    Ok(())
}
