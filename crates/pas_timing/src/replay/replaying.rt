//! A replay, and how long it took.
ghost use Rattle.std.specs.Prelude.{◌≡◌, ◌≤◌, ◌+◌, ℕ, List, [], length};
ghost use Rattle.pas_trace.specs.Plans.{IsPlanOf};
ghost use Rattle.pas_records.specs.Rooms.{records_in, room_of};
ghost use Rattle.pas_answers.specs.Replays.{phases_of};

use pas_records::Records;
use pas_replay::{PlainKit, in_order, records_for};
use pas_threads::{OpenGate, SharedKit, on_threads};
use pas_top::Reallocation;
use pas_trace::{Plan, read_trace};
use std::alloc::Global;
use std::io;
use std::sync::Wait;
use std::thread::Threads;
use std::time::{Clock, Duration, Instant};

/// How a trace is replayed.
#[derive(Clone, Copy, Drop)]
pub enum Way {
    InOrder,
    OnThreads,
}

/// How many records a replay had, and how long it took by the clock on the wall.
#[derive(Drop)]
pub struct Timed {
    pub records: usize,
    pub took: Duration,
}

/// The replay in the order of the text. None where memory is wanting.
fn time_in_order<R: Clock>(
    rt: &R,
    alloc: Global,
    plan: &Plan,
    out: &mut Records,
) -> io::Result<Option<Duration>>
    requires plan { (text : List ℕ) × (length text ≤ 16777216) × IsPlanOf text plan.now }
    requires empty { records_in out.old ≡ [] }
    requires room { plan.now.total + length (phases_of plan.now) + 1 ≤ room_of out.old }
{
    let Ok(kit) = PlainKit::try_new(alloc, plan) else {
        return Ok(None);
    };
    let start = Instant::now(rt)?;
    let state = in_order(plan, kit, &Reallocation, out);
    let took = start.elapsed(rt)?;
    drop(state);
    Ok(Some(took))
}

/// The replay on threads. None where memory is wanting.
fn time_on_threads<R: Clock + Threads + Wait + Sync>(
    rt: &R,
    alloc: Global,
    plan: &Plan,
    out: &mut Records,
) -> io::Result<Option<Duration>>
    requires plan { (text : List ℕ) × (length text ≤ 16777216) × IsPlanOf text plan.now }
    requires empty { records_in out.old ≡ [] }
    requires room { plan.now.total + length (phases_of plan.now) + 1 ≤ room_of out.old }
{
    let Ok(kit) = SharedKit::try_new(alloc, plan) else {
        return Ok(None);
    };
    let start = Instant::now(rt)?;
    let state = on_threads(rt, plan, kit, &OpenGate, &Reallocation, out);
    let took = start.elapsed(rt)?;
    drop(state);
    Ok(Some(took))
}

/// The replay of the text in this way, from the kit on. None where the text is no trace, or memory is wanting.
pub fn time_replay<R: Clock + Threads + Wait + Sync>(
    rt: &R,
    alloc: Global,
    text: &[u8],
    way: Way,
) -> io::Result<Option<Timed>>
    requires { length text.now ≤ 16777216 }
{
    let Ok(plan) = read_trace(alloc, text) else {
        return Ok(None);
    };
    let Ok(mut out) = records_for(alloc, &plan) else {
        return Ok(None);
    };
    let took = match way {
        Way::InOrder => time_in_order(rt, alloc, &plan, &mut out)?,
        Way::OnThreads => time_on_threads(rt, alloc, &plan, &mut out)?,
    };
    Ok(took.map(|took| Timed {
        records: out.as_slice().len(),
        took,
    }))
}
