//! A call whose source and sink can't fail, and where the blocks of a bit-fit page end after a replay.
ghost use Rattle.std.specs.Prelude.{◌≡◌, ◌≤◌, ◌⊎◌, length};

use crate::traces::{TRACE, replayed};
use pas_bitfit::end_bits;
use pas_bits::Mask4;
use pas_io::sure::{SureSink, SureSource};
use pas_top::pas_main;
use std::alloc::Global;
use std::sync::Wait;
use std::test::Fail;
use std::thread::Threads;

/// Neither a read nor a write can fail here, so the status is neither 3 nor 4.
fn sure_status<R: AllocGlobal + Threads + Wait + Sync>(rt: &R, input: Vec<u8>) -> u8
    ensures { (result ≡ 0) ⊎ (result ≡ 1) ⊎ (result ≡ 5) ⊎ (result ≡ 6) }
{
    pas_main(
        rt,
        rt.alloc(),
        &["order"],
        &mut SureSource::new(input),
        &mut SureSink::new(),
    )
}

#[test]
fn replays_a_trace(rt: HostRuntime) -> Result<(), Fail> {
    let input = Vec::from_slice(rt.alloc(), TRACE.as_bytes())?;
    assert!(rt; sure_status(&rt, input) == 0);
    Ok(())
}

/// Bit-fit blocks of 33 and 34 grains: the second was freed and its place used anew, and freed again.
const BITFIT_TRACE: &str =
    "pas 1 pages 1 threads 1 heaps 1 age 2\na 1 1 0 528 16\na 1 2 0 528 16\na 1 3 0 528 16\nf 1 2\nflush 1\na 1 4 0 528 16\nf 1 4\nflush 1\na 1 5 0 529 16\n";

/// Where the live blocks of page 1 end after the trace.
fn ends_after(alloc: Global, trace: &str) -> Result<Mask4, Fail>
    requires { length trace.now ≤ 16777216 }
{
    let (_, state) = replayed(alloc, trace.as_bytes())?;
    if state.profile().pages < 1 {
        return Err(Fail::new("the region has no page"));
    }
    Ok(end_bits(&state, 1))
}

#[test]
fn bitfit_blocks_have_ends(rt: HostRuntime) -> Result<(), Fail> {
    // grains 32, 98 and 132
    let ends = Mask4([1 << 32, 1 << 34, 1 << 4, 0]);
    assert!(rt; ends_after(rt.alloc(), BITFIT_TRACE)? == ends);
    Ok(())
}
