//! The workers of a phase run at once, and the gate is called round each operation.
ghost use Rattle.std.specs.Prelude.{◌≤◌, length};

use crate::traces::replayed_on_threads;
use pas_profile::Event;
use pas_records::Record;
use pas_threads::Gate;
use std::sync::Wait;
use std::sync::atomic::Ordering::SeqCst;
use std::sync::atomic::{AtomicBool, AtomicU32};
use std::test::Fail;
use std::thread::{Threads, yield_now};

/// Two threads, with two operations each in one phase.
const TRACE: &str =
    "pas 1 pages 4 threads 2 heaps 1 age 2\na 1 1 0 16 16\na 1 2 0 16 16\na 2 3 0 32 16\na 2 4 0 32 16\n";

/// How often a thread looks for what another one sets before it gives up.
const TURNS: u32 = 100_000_000;

/// After so many turns it lets other threads run, which may be as many as the processors.
const PATIENCE: u32 = 1024;

/// Whether the flag is set before the turns end.
fn is_set_in_time(flag: &AtomicBool) -> bool {
    for turn in 0..TURNS {
        if flag.load(SeqCst) {
            return true;
        }
        if turn % PATIENCE == 0 {
            yield_now();
        }
    }
    false
}

/// Holds each of the two threads before its second operation until the other's first is answered.
#[derive(Drop)]
struct Meeting {
    /// Of each thread, whether its first operation is answered.
    answered: [AtomicBool; 2],
    /// Of each thread, whether it came to its second operation and the other's first was answered then.
    met: [AtomicBool; 2],
}

impl Gate for Meeting {
    fn before(&self, actor: u8, number: u32) {
        if number == 2 && is_set_in_time(&self.answered[(actor as usize + 1) % 2]) {
            self.met[actor as usize % 2].store(true, SeqCst);
        }
    }

    fn after(&self, actor: u8, number: u32) {
        if number == 1 {
            self.answered[actor as usize % 2].store(true, SeqCst);
        }
    }
}

impl Meeting {
    fn new() -> Meeting {
        Meeting {
            answered: [AtomicBool::new(false), AtomicBool::new(false)],
            met: [AtomicBool::new(false), AtomicBool::new(false)],
        }
    }

    /// Whether each thread met the other.
    fn have_met(&self) -> bool {
        self.met[0].load(SeqCst) && self.met[1].load(SeqCst)
    }
}

/// Whether both threads met in a replay of the trace.
fn meet<R: AllocGlobal + Threads + Wait + Sync>(rt: &R, text: &[u8]) -> Result<bool, Fail>
    requires { length text.now ≤ 16777216 }
{
    let meeting = Meeting::new();
    let _replayed = replayed_on_threads(rt, text, &meeting)?;
    Ok(meeting.have_met())
}

#[test]
fn the_workers_of_a_phase_run_at_once(rt: HostRuntime) -> Result<(), Fail> {
    assert!(rt; meet(&rt, TRACE.as_bytes())?);
    Ok(())
}

/// Two threads, and the scavenger, with two operations each.
const OPERATIONS: &str =
    "pas 1 pages 4 threads 2 heaps 1 age 2\na 1 1 0 16 16\ntick 1\na 2 2 0 32 16\nflush 1\npass\nflush 2\n";

/// Counts the calls of each actor.
#[derive(Drop)]
struct Counting {
    begun: [AtomicU32; 3],
    answered: [AtomicU32; 3],
    /// Whether some call had another number than the next one.
    is_wrong: AtomicBool,
}

impl Gate for Counting {
    fn before(&self, actor: u8, number: u32) {
        let before = number.saturating_sub(1);
        self.expect(actor, before, before);
        self.begun[actor as usize % 3].store(number, SeqCst);
    }

    fn after(&self, actor: u8, number: u32) {
        self.expect(actor, number, number.saturating_sub(1));
        self.answered[actor as usize % 3].store(number, SeqCst);
    }
}

impl Counting {
    fn new() -> Counting {
        Counting {
            begun: [AtomicU32::new(0), AtomicU32::new(0), AtomicU32::new(0)],
            answered: [AtomicU32::new(0), AtomicU32::new(0), AtomicU32::new(0)],
            is_wrong: AtomicBool::new(false),
        }
    }

    /// So many operations of the actor were begun, and so many answered.
    fn expect(&self, actor: u8, begun: u32, answered: u32) {
        let own = actor as usize % 3;
        if self.begun[own].load(SeqCst) != begun || self.answered[own].load(SeqCst) != answered {
            self.is_wrong.store(true, SeqCst);
        }
    }

    /// Whether all of them counted two operations, each before and after it.
    fn is_full(&self) -> bool {
        for actor in 0..3 {
            self.expect(actor, 2, 2);
        }
        !self.is_wrong.load(SeqCst)
    }
}

/// Whether the gate was called in a replay of the trace with each number, before and after.
fn counts<R: AllocGlobal + Threads + Wait + Sync>(rt: &R, text: &[u8]) -> Result<bool, Fail>
    requires { length text.now ≤ 16777216 }
{
    let counting = Counting::new();
    let _replayed = replayed_on_threads(rt, text, &counting)?;
    Ok(counting.is_full())
}

#[test]
fn the_gate_is_called_with_each_number(rt: HostRuntime) -> Result<(), Fail> {
    assert!(rt; counts(&rt, OPERATIONS.as_bytes())?);
    Ok(())
}

/// Thread 1 asks for a whole page, as thread 2 does after a first request, which takes one of the two.
const ONE_LEFT: &str =
    "pas 1 pages 2 threads 2 heaps 1 age 2\na 1 1 0 4096 16\na 2 2 0 16 16\na 2 3 0 4096 16\n";

/// Holds thread 1 before its operation until those of thread 2 are answered, and thread 2 behind its first until thread 1 came to its own.
#[derive(Drop)]
struct Holding {
    came: AtomicBool,
    answered: AtomicBool,
    held: AtomicBool,
}

impl Gate for Holding {
    fn before(&self, actor: u8, _number: u32) {
        if actor == 1 {
            self.came.store(true, SeqCst);
            self.held.store(is_set_in_time(&self.answered), SeqCst);
        }
    }

    fn after(&self, actor: u8, number: u32) {
        if actor == 2 && number == 1 {
            let _came = is_set_in_time(&self.came);
        }
        if actor == 2 && number == 2 {
            self.answered.store(true, SeqCst);
        }
    }
}

/// Whether the record is a whole page that thread 2 got.
fn is_page_of_2(record: &Record) -> bool {
    match record {
        Record::Event(Event::Give { actor, block }) => *actor == 2 && block.room == 4096,
        _ => false,
    }
}

/// Whether thread 1 was held, and thread 2 got the page that was left.
fn holds<R: AllocGlobal + Threads + Wait + Sync>(rt: &R, text: &[u8]) -> Result<bool, Fail>
    requires { length text.now ≤ 16777216 }
{
    let holding = Holding {
        came: AtomicBool::new(false),
        answered: AtomicBool::new(false),
        held: AtomicBool::new(false),
    };
    let (records, _) = replayed_on_threads(rt, text, &holding)?;
    let mut is_given = false;
    for record in records.as_slice() {
        is_given = is_given || is_page_of_2(record);
    }
    Ok(is_given && holding.held.load(SeqCst))
}

#[test]
fn an_operation_begins_behind_its_gate(rt: HostRuntime) -> Result<(), Fail> {
    assert!(rt; holds(&rt, ONE_LEFT.as_bytes())?);
    Ok(())
}
