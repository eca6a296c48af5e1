//! The text of a generated trace.
ghost use Rattle.std.specs.Prelude.{◌≡◌, ◌+◌, ◌*◌, ◌≤◌, IfOk, vec_len};
ghost use Rattle.pas_generate.specs.Traces.{IsJob, trace_text};

use crate::generator::Generator;
use crate::lines::{HEADER_BYTES, LINE_BYTES, push_header, push_operation};
use pas_profile::NoMemory;
use std::alloc::Global;

/// The text of the trace that this seed gives: so many operations of so many threads, in six heaps of which the last is
/// shared, over a region of so many pages.
///
/// The two rooms that it needs are taken at the start, of `64 + 32 * ops` bytes for the text and of an entry for each
/// operation. Costs at most six draws and one line of at most 32 bytes for each operation.
pub fn trace_of(
    alloc: Global,
    seed: u64,
    ops: u32,
    threads: u8,
    pages: u32,
) -> Result<Vec<u8>, NoMemory>
    requires { IsJob ops threads pages }
    ensures text { IfOk result (λ text. text.items ≡ trace_text seed ops threads pages) }
    ensures long { IfOk result (λ text. vec_len text ≤ 64 + 32 * ops) }
{
    let Ok(mut text) = Vec::with_capacity(alloc, HEADER_BYTES + LINE_BYTES * ops as usize) else {
        return Err(NoMemory);
    };
    let mut generator = Generator::try_new(alloc, seed, ops, threads)?;
    push_header(&mut text, pages, threads);
    for done in 0..ops {
        let operation = generator.next(done + 1);
        push_operation(&mut text, operation);
    }
    Ok(text)
}
