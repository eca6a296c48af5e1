//! Threads in a storm at one shared region, each with a cache of its own.
ghost use Rattle.std.specs.Prelude.{◌≡◌, ◌≤◌, ⊤, All, IfOk};
ghost use Rattle.pas_utility.specs.Pools.{threads_of};
ghost use Rattle.pas_shared.specs.{Passes.{IsPassOf, IsFreshPass}, Workers.HasPass};
ghost use Rattle.pas_trials.specs.SharedStorms.{IsReadyForStorm, MayTakeTurns};

use crate::shared_storm::Storm;
use pas_cache::ThreadCache;
use pas_shared::{Job, SharedDesk, SharedPass, SharedRegion, Worker, into_passes, seat_all};
use pas_utility::Utility;
use std::alloc::{AllocError, Global};
use std::thread::Threads;

/// A thread's cache, and its storm.
#[derive(Drop)]
pub struct StormWork {
    pub cache: ThreadCache,
    pub storm: Storm,
    /// Whether the cache was stopped at the end.
    pub stopped: bool,
}

/// A worker for each pass of a thread, with an empty cache, that asks for blocks of these sizes. The scavenger's pass is
/// let go.
pub fn storm_workers(
    alloc: Global,
    region: &SharedRegion,
    passes: Vec<SharedPass>,
    utility: &mut Utility,
    threads: u8,
    events: u32,
    sizes: [u32; 3],
) -> Result<Vec<Worker<StormWork>>, AllocError>
    requires threads { threads_of utility.old ≡ threads }
    requires passes { All (IsFreshPass region.now events) passes.items }
    ensures { IfOk result (λ workers. All (IsReadyForStorm region.now events) workers.items) }
{
    let _ = region;
    let _ = events;
    let mut workers = Vec::new(alloc);
    for pass in passes {
        let actor = pass.actor();
        if actor < 1 || actor > threads {
            continue;
        }
        let Some(seat) = utility.cache_seat(actor) else {
            continue;
        };
        let work = StormWork {
            cache: ThreadCache::new(seat),
            storm: Storm::new(actor as u64, sizes),
            stopped: false,
        };
        workers.push(Worker {
            pass: Some(pass),
            work,
        })?;
    }
    Ok(workers)
}

/// So many turns of each thread, in a room for so many events.
#[derive(Drop)]
struct Turns {
    events: u32,
    turns: u64,
}

impl Job<StormWork> for Turns {
    ghost may = { λ job region work pass. MayTakeTurns job.events region work pass };

    ghost did = { λ job region work pass after left. ⊤ };

    fn perform(&self, work: &mut StormWork, desk: &mut SharedDesk<'_>) {
        let room = self.events as usize;
        work.stopped = work.storm.run(desk, &mut work.cache, room, self.turns);
    }
}

/// All of them at once, each in a thread of its own.
pub fn run_storm<R: Threads + Sync>(
    rt: &R,
    region: &SharedRegion,
    workers: &mut Vec<Worker<StormWork>>,
    events: u32,
    turns: u64,
)
    requires { All (IsReadyForStorm region.now events) workers.old.items }
    ensures { All (HasPass region.now) workers.new.items }
{
    seat_all(rt, region, workers, &Turns { events, turns }, 16);
}

/// What the threads of a storm did, all together.
#[derive(Clone, Copy, PartialEq, Eq, Drop)]
pub struct Total {
    pub steps: u64,
    pub served: u64,
    pub events: u64,
    pub stopped: u64,
}

/// The passes of all, and what they did.
pub fn gather(
    alloc: Global,
    region: &SharedRegion,
    workers: Vec<Worker<StormWork>>,
) -> Result<(Vec<SharedPass>, Total), AllocError>
    requires { All (HasPass region.now) workers.items }
    ensures { IfOk result (λ r. All (IsPassOf region.now) r.0.items) }
{
    let (passes, works) = into_passes(alloc, region, workers)?;
    let mut total = Total {
        steps: 0,
        served: 0,
        events: 0,
        stopped: 0,
    };
    for (pass, work) in passes.iter().zip(works.iter()) {
        total.steps = total.steps.saturating_add(pass.count());
        total.served = total.served.saturating_add(work.storm.served);
        total.events = total.events.saturating_add(pass.shown().len() as u64);
        total.stopped = total.stopped.saturating_add(work.stopped as u64);
    }
    Ok((passes, total))
}
