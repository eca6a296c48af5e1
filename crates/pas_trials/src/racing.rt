//! Threads that each take the slots of a page at once.
ghost use Rattle.std.specs.Prelude.{◌≡◌, All, IfOk};
ghost use Rattle.pas_trials.specs.Races.{IsReadyForRace, MayRefill, HasRefilled};
ghost use Rattle.pas_shared.specs.{Passes.IsFreshPass, Workers.HasPass};

use pas_profile::NoRoom;
use pas_segregated::{Slots, refill};
use pas_shared::{Job, SharedDesk, SharedPass, SharedRegion, Worker, seat_all};
use std::alloc::{AllocError, Global};
use std::thread::Threads;

/// What a thread's refill came to, once it made one.
pub type Answer = Option<Result<Slots, NoRoom>>;

/// A worker for each pass.
pub fn workers_of(
    alloc: Global,
    region: &SharedRegion,
    passes: Vec<SharedPass>,
) -> Result<Vec<Worker<Answer>>, AllocError>
    requires { All (IsFreshPass region.now 2) passes.items }
    ensures { IfOk result (λ workers. All (IsReadyForRace region.now) workers.items) }
{
    let _ = region;
    let mut workers = Vec::new(alloc);
    for pass in passes {
        workers.push(Worker {
            pass: Some(pass),
            work: None,
        })?;
    }
    Ok(workers)
}

/// Each worker takes the slots of a page of the smallest class, and keeps them.
#[derive(Drop)]
pub struct RefillFirst;

impl Job<Answer> for RefillFirst {
    ghost may = { λ job region work pass. MayRefill region work pass };

    ghost did = { λ job region work pass answer left. HasRefilled pass answer left };

    fn perform(&self, work: &mut Answer, desk: &mut SharedDesk<'_>) {
        *work = Some(refill(desk, 0, 0));
    }
}

/// Each worker takes slots, in a thread of its own.
pub fn race<R: Threads + Sync>(rt: &R, region: &SharedRegion, workers: &mut Vec<Worker<Answer>>)
    requires { All (IsReadyForRace region.now) workers.old.items }
    ensures { All (HasPass region.now) workers.new.items }
{
    seat_all(rt, region, workers, &RefillFirst, 16);
}
