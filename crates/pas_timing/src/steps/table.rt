//! The table of what was measured: processor time, since the clock on the wall also counts what others do on the machine.
ghost use Rattle.std.specs.Prelude.{◌≡◌, ◌≤◌, ◌<◌, All, IfOk};
ghost use Rattle.pas_steps.specs.Desks.{AnyView, CanCall};
ghost use Rattle.pas_shared.specs.Passes.{profile_of, IsFreshPass};
ghost use Rattle.pas_timing.specs.Repeats.{bench_profile, IsReadyToTake};

use crate::steps::bare;
use crate::steps::opened::{THREADS, plain, shared};
use crate::steps::repeating::{Kind, repeat};
use crate::steps::sharing::Takes;
use pas_shared::{SharedPass, SharedRegion, Worker, seat_all};
use pas_steps::Desk;
use pas_trials::{gather, run_storm, storm_workers};
use pas_utility::Utility;
use std::alloc::Global;
use std::io;
use std::io::ErrorKind;
use std::sync::atomic::AtomicU64;
use std::thread::Threads;
use std::time::{CpuClock, Duration};

const NAMES: [&str; 4] = ["look", "hint", "unhint", "tick"];

/// The events for which each thread of a storm has room, and the sizes of its blocks.
const EVENTS: u32 = 1_000_000;

const SIZES: [u32; 3] = [16, 200, 512];

/// Tenths of a nanosecond a round, and the sum of the answers, so that no answer is for nothing.
#[derive(Clone, Copy, Drop)]
struct Time {
    tenths: u64,
    sum: u64,
}

/// The processor time of all threads since then, of so many rounds.
fn since<R: CpuClock>(rt: &R, start: Duration, rounds: u64, sum: u64) -> io::Result<Time>
    requires { 1 ≤ rounds }
{
    let nanos = rt.process_cpu_time()?.saturating_sub(start).as_nanos();
    let tenths = nanos.saturating_mul(10) / rounds as u128;
    Ok(Time {
        tenths: u64::try_from(tenths).unwrap_or(u64::MAX),
        sum,
    })
}

#[inline(always)]
fn of_kind<R: CpuClock, D: Desk>(rt: &R, desk: &mut D, kind: Kind, rounds: u64) -> io::Result<Time>
    requires rounds { 1 ≤ rounds }
    requires pages { 64 ≤ (D.standing desk.old).seat.profile.pages }
    requires can { CanCall (D.standing desk.old) AnyView }
    ensures seat { (D.standing desk.new).seat ≡ (D.standing desk.old).seat }
    ensures can { CanCall (D.standing desk.new) AnyView }
{
    let start = rt.process_cpu_time()?;
    let sum = repeat(desk, kind, rounds);
    since(rt, start, rounds, sum)
}

/// Each kind of step at the desk.
fn of_desk<R: CpuClock, D: Desk>(rt: &R, desk: &mut D, rounds: u64) -> io::Result<[Time; 4]>
    requires rounds { 1 ≤ rounds }
    requires pages { 64 ≤ (D.standing desk.old).seat.profile.pages }
    requires can { CanCall (D.standing desk.old) AnyView }
{
    let look = of_kind(rt, desk, Kind::Look, rounds)?;
    let hint = of_kind(rt, desk, Kind::Hint, rounds)?;
    let unhint = of_kind(rt, desk, Kind::Unhint, rounds)?;
    let tick = of_kind(rt, desk, Kind::Tick, rounds)?;
    Ok([look, hint, unhint, tick])
}

#[inline(always)]
fn of_words<R: CpuClock>(
    rt: &R,
    words: &[AtomicU64; 4],
    kind: Kind,
    rounds: u64,
) -> io::Result<Time>
    requires { 1 ≤ rounds }
{
    let start = rt.process_cpu_time()?;
    let sum = bare::repeat(words, kind, rounds);
    since(rt, start, rounds, sum)
}

/// Each kind of operation on bare words.
fn of_bare<R: CpuClock>(rt: &R, rounds: u64) -> io::Result<[Time; 4]>
    requires { 1 ≤ rounds }
{
    let words = [
        AtomicU64::new(0),
        AtomicU64::new(0),
        AtomicU64::new(0),
        AtomicU64::new(0),
    ];
    let look = of_words(rt, &words, Kind::Look, rounds)?;
    let hint = of_words(rt, &words, Kind::Hint, rounds)?;
    let unhint = of_words(rt, &words, Kind::Unhint, rounds)?;
    let tick = of_words(rt, &words, Kind::Tick, rounds)?;
    Ok([look, hint, unhint, tick])
}

/// The page of the worker of this number.
fn page_of(number: u32, spread: bool) -> u32
    requires { number < 4 }
    ensures low { 1 ≤ result }
    ensures high { result ≤ 64 }
{
    if spread { 1 + 16 * number } else { 1 + number }
}

/// Workers for the first passes, so many, on pages beside each other or on pages far from each other.
fn workers_of(
    alloc: Global,
    region: &SharedRegion,
    passes: Vec<SharedPass>,
    threads: usize,
    spread: bool,
) -> io::Result<Vec<Worker<u32>>>
    requires threads { threads ≤ 4 }
    requires profile { profile_of region.now ≡ bench_profile }
    requires passes { All (IsFreshPass region.now 1) passes.items }
    ensures { IfOk result (λ workers. All (IsReadyToTake region.now) workers.items) }
{
    let _ = region;
    let mut workers = Vec::new(alloc);
    for pass in passes {
        let number = workers.len();
        if number < threads {
            workers.push(Worker {
                pass: Some(pass),
                work: page_of(number as u32, spread),
            })?;
        }
    }
    Ok(workers)
}

/// Takes by so many threads at once.
fn of_threads<R: CpuClock + Threads + Sync>(
    rt: &R,
    alloc: Global,
    threads: usize,
    spread: bool,
    rounds: u64,
) -> io::Result<Time>
    requires threads { threads ≤ 4 }
    requires rounds { 1 ≤ rounds }
{
    let Ok((region, passes)) = shared(alloc, 1) else {
        return Err(ErrorKind::OutOfMemory.into());
    };
    let mut workers = workers_of(alloc, &region, passes, threads, spread)?;
    let job = Takes { rounds };
    let start = rt.process_cpu_time()?;
    seat_all(rt, &region, &mut workers, &job, THREADS as usize);
    since(rt, start, rounds.saturating_mul(threads as u64).max(1), 0)
}

fn print_steps<R: Print>(
    rt: &R,
    plain: [Time; 4],
    shared: [Time; 4],
    bare: [Time; 4],
) -> io::Result<()> {
    for i in 0..NAMES.len() {
        let name = NAMES[i];
        let sum = plain[i]
            .sum
            .wrapping_add(shared[i].sum)
            .wrapping_add(bare[i].sum);
        let (plain, shared, bare) = (plain[i].tenths, shared[i].tenths, bare[i].tenths);
        println!(rt;
            "{name}: plain {}.{} ns, shared {}.{} ns, bare {}.{} ns (sum {sum})",
            plain / 10,
            plain % 10,
            shared / 10,
            shared % 10,
            bare / 10,
            bare % 10
        )?;
    }
    Ok(())
}

fn print_threads<R: CpuClock + Print + Threads + Sync>(
    rt: &R,
    alloc: Global,
    rounds: u64,
) -> io::Result<()>
    requires { 1 ≤ rounds }
{
    for threads in [1, 2, 4] {
        let beside = of_threads(rt, alloc, threads, false, rounds)?.tenths;
        let spread = of_threads(rt, alloc, threads, true, rounds)?.tenths;
        println!(rt;
            "take by {threads}: pages in a row {}.{} ns, pages apart {}.{} ns",
            beside / 10,
            beside % 10,
            spread / 10,
            spread % 10
        )?;
    }
    Ok(())
}

/// A storm of so many threads, each with a cache, of so many turns: the time of a step.
fn of_storm<R: CpuClock + Threads + Sync>(
    rt: &R,
    alloc: Global,
    threads: usize,
    turns: u64,
) -> io::Result<Time> {
    let Ok((region, passes)) = shared(alloc, EVENTS) else {
        return Err(ErrorKind::OutOfMemory.into());
    };
    let Ok(mut utility) = Utility::try_new(alloc, region.profile(), &[0; 5]) else {
        return Err(ErrorKind::OutOfMemory.into());
    };
    let mut workers = storm_workers(alloc, &region, passes, &mut utility, THREADS, EVENTS, SIZES)?;
    workers.truncate(threads);
    let start = rt.process_cpu_time()?;
    run_storm(rt, &region, &mut workers, EVENTS, turns);
    let (_, total) = gather(alloc, &region, workers)?;
    since(rt, start, total.steps.max(1), total.served)
}

fn print_storms<R: CpuClock + Print + Threads + Sync>(
    rt: &R,
    alloc: Global,
    turns: u64,
) -> io::Result<()> {
    for threads in [1, 2, 4] {
        let Time { tenths, sum } = of_storm(rt, alloc, threads, turns)?;
        println!(rt;
            "step in a storm of {threads}: {}.{} ns (blocks {sum})",
            tenths / 10,
            tenths % 10
        )?;
    }
    Ok(())
}

/// Measures with so many rounds each, and prints the table.
pub fn print<R: CpuClock + Print + Threads + Sync>(
    rt: &R,
    alloc: Global,
    rounds: u64,
) -> io::Result<()>
    requires { 1 ≤ rounds }
{
    let Ok(mut desk) = plain(alloc) else {
        return Err(ErrorKind::OutOfMemory.into());
    };
    let at_plain = of_desk(rt, &mut desk, rounds)?;
    let at_shared = of_shared(rt, alloc, rounds)?;
    print_steps(rt, at_plain, at_shared, of_bare(rt, rounds)?)?;
    print_threads(rt, alloc, rounds)?;
    print_storms(rt, alloc, rounds / 64)
}

/// Each kind of step at the desk of a shared region at which nobody else sits.
fn of_shared<R: CpuClock>(rt: &R, alloc: Global, rounds: u64) -> io::Result<[Time; 4]>
    requires { 1 ≤ rounds }
{
    let Ok((region, mut passes)) = shared(alloc, 1) else {
        return Err(ErrorKind::OutOfMemory.into());
    };
    let Some(pass) = passes.pop() else {
        return Err(ErrorKind::OutOfMemory.into());
    };
    let mut desk = region.desk(pass);
    of_desk(rt, &mut desk, rounds)
}
