//! Traces, and what they are replayed to.
ghost use Rattle.std.specs.Prelude.{◌≤◌, length};

use itoa::Buffer;
use pas_records::Records;
use pas_replay::{PlainKit, in_order, records_for};
use pas_steps::State;
use pas_threads::{Gate, SharedKit, on_threads};
use pas_top::Reallocation;
use pas_trace::read_trace;
use std::alloc::{AllocError, Global};
use std::sync::Wait;
use std::test::Fail;
use std::thread::Threads;

/// The most bytes of a trace.
pub const MOST_BYTES: usize = 16_777_216;

pub const TRACE: &str = "pas 1 pages 4 threads 1 heaps 1 age 2\na 1 1 0 24 16\nf 1 1\n";

/// Adds words, a number and words.
fn push(text: &mut Vec<u8>, before: &str, number: u32, after: &str) -> Result<(), AllocError> {
    text.extend_from_slice(before.as_bytes())?;
    text.extend_from_slice(Buffer::new().format(number).as_bytes())?;
    text.extend_from_slice(after.as_bytes())
}

/// Requests of so many bytes, one after the other, and then the frees of all.
pub fn filling(alloc: Global, pages: u32, requests: u32, size: u32) -> Result<Vec<u8>, AllocError> {
    let mut text = Vec::new(alloc);
    push(
        &mut text,
        "pas 1 pages ",
        pages,
        " threads 1 heaps 1 age 2\n",
    )?;
    for before in 0..requests {
        push(&mut text, "a 1 ", before + 1, " 0 ")?;
        push(&mut text, "", size, " 16\n")?;
    }
    for before in 0..requests {
        push(&mut text, "f 1 ", before + 1, "\n")?;
    }
    Ok(text)
}

/// The records of the trace's replay in the order of its text, and the region's state after it.
pub fn replayed(alloc: Global, text: &[u8]) -> Result<(Records, State), Fail>
    requires { length text.now ≤ 16777216 }
{
    let Ok(plan) = read_trace(alloc, text) else {
        return Err(Fail::new("the text is no trace"));
    };
    let mut records = records_for(alloc, &plan)?;
    let kit = PlainKit::try_new(alloc, &plan)?;
    let state = in_order(&plan, kit, &Reallocation, &mut records);
    Ok((records, state))
}

/// The records of the trace's replay on threads, and the region's state after it. The gate is called round each operation.
pub fn replayed_on_threads<R: AllocGlobal + Threads + Wait + Sync, G: Gate + Sync>(
    rt: &R,
    text: &[u8],
    gate: &G,
) -> Result<(Records, State), Fail>
    requires { length text.now ≤ 16777216 }
{
    let Ok(plan) = read_trace(rt.alloc(), text) else {
        return Err(Fail::new("the text is no trace"));
    };
    let kit = SharedKit::try_new(rt.alloc(), &plan)?;
    let mut records = records_for(rt.alloc(), &plan)?;
    let state = on_threads(rt, &plan, kit, gate, &Reallocation, &mut records);
    Ok((records, state))
}
