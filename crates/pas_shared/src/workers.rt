//! Workers at a shared region: each sits down there, does its part of a job and rises, in a thread of its own.
ghost use Rattle.std.specs.Prelude.{◌≡◌, ◌<◌, ℕ, Some, All, IfOk, length, map, get_or};
ghost use Rattle.pas_shared.specs.{Passes.IsPassOf, Workers.{IsReady, HasPass, HasRisen, pass_of, work_of}, declared.workers.Worker.Worker as TheWorker};

use crate::desk::SharedDesk;
use crate::pass::SharedPass;
use crate::region::SharedRegion;
use std::alloc::{AllocError, Global};
use std::thread::{Threads, for_each_mut};

/// A worker: its pass while it doesn't sit at the region, and what it works on.
#[derive(Drop)]
pub struct Worker<W> {
    pub pass: Option<SharedPass>,
    pub work: W,
}

/// A job of which each worker does its part.
pub trait Job<W> {
    ghost use Rattle.std.specs.Prelude.{◌≡◌};
    ghost use Rattle.pas_shared.specs.declared.{region.SharedRegion.SharedRegion as TheRegion, pass.SharedPass.SharedPass as ThePass};

    /// When a worker may do its part: by the region, its work and its pass.
    ghost may: { Self → TheRegion → W → ThePass → Type 0 };

    /// What it did: by the region, and its work and its pass before and after.
    ghost did: { Self → TheRegion → W → ThePass → W → ThePass → Type 0 };

    /// Does the part of the worker that sits at this desk.
    fn perform(&self, work: &mut W, desk: &mut SharedDesk<'_>)
        requires may { may self.now desk.old.region.now work.old desk.old.pass }
        ensures did { did self.now desk.old.region.now work.old desk.old.pass work.new desk.new.pass }
        ensures home { desk.new.region.now ≡ desk.old.region.now };
}

/// The worker sits down, does its part of the job, and rises.
fn seat<W, J: Job<W>>(region: &SharedRegion, worker: &mut Worker<W>, job: &J)
    requires ready { IsReady (J.may job.now) region.now worker.old }
    ensures back { HasPass region.now worker.new }
    ensures risen { HasRisen (J.did job.now) region.now worker.old worker.new }
{
    if let Some(pass) = worker.pass.take() {
        let mut desk = region.desk(pass);
        job.perform(&mut worker.work, &mut desk);
        worker.pass = Some(desk.into_pass());
    }
}

/// Each worker sits down, does its part of the job and rises, in at most so many threads at once: with as many threads as workers, each in one of its
/// own. It ends when all have risen, refuses nothing, and makes no step but those of the job. Where no thread can be made, workers go one after the
/// other.
pub fn seat_all<R: Threads + Sync, W: Send, J: Job<W> + Sync>(
    rt: &R,
    region: &SharedRegion,
    workers: &mut Vec<Worker<W>>,
    job: &J,
    threads: usize,
)
    requires threads { 0 < threads }
    requires ready { All (IsReady (J.may job.now) region.now) workers.old.items }
    ensures many { length workers.new.items ≡ length workers.old.items }
    ensures back { All (HasPass region.now) workers.new.items }
    ensures risen { (i : ℕ) (d : TheWorker W) → i < length workers.old.items
        → HasRisen (J.did job.now) region.now (get_or workers.old.items i d) (get_or workers.new.items i d) }
{
    for_each_mut(rt, workers, threads, &|_, worker| seat(region, worker, job));
}

/// The passes of workers that have risen, and what each worked on, both in their order. It refuses only where memory is wanting, and makes no step.
pub fn into_passes<W: Drop>(
    alloc: Global,
    region: &SharedRegion,
    workers: Vec<Worker<W>>,
) -> Result<(Vec<SharedPass>, Vec<W>), AllocError>
    requires { All (HasPass region.now) workers.items }
    ensures of_region { IfOk result (λ r. All (IsPassOf region.now) r.0.items) }
    ensures passes { IfOk result (λ r. map Some r.0.items ≡ map pass_of workers.items) }
    ensures works { IfOk result (λ r. r.1.items ≡ map work_of workers.items) }
{
    let _ = region;
    let mut passes = Vec::new(alloc);
    let mut works = Vec::new(alloc);
    for worker in workers {
        let Worker { pass, work } = worker;
        passes.push(pass.unwrap())?;
        works.push(work)?;
    }
    Ok((passes, works))
}
