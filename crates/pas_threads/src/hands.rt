//! The hands that act in a phase, all at once: the worker of each thread that has an operation in it, and the scavenger where one is its own.
ghost use Rattle.std.specs.Prelude.{◌≡◌, ◌<◌, ◌^◌, true, false, All, length, vec_capacity};
ghost use Rattle.pas_threads.specs.{Pairs.{MayDoPhase, DidPhases}, Scavengers.{MayScavenge, DidScavenge}};

use crate::scavenger::{Scavenger, keep_up};
use crate::workers::{Worker, perform};
use pas_acts::gate::Gate;
use pas_acts::names::NameBook;
use pas_answers::Remake;
use pas_large::LargeIndex;
use pas_shared::SharedRegion;
use pas_trace::Op;
use std::sync::{Mutex, Wait};
use std::thread::{Threads, for_each_mut, join_mut};

/// The most hands of a phase beside the scavenger: those of 16 threads.
const MOST_HANDS: usize = 16;

/// All hands at once, each in a thread of its own. The end waits for all of them, and a hand for the lock of an index.
fn act_all<R: Threads + Wait + Sync, G: Gate + Sync, M: Remake + Sync>(
    rt: &R,
    region: &SharedRegion,
    indexes: &[Mutex<LargeIndex>],
    book: &NameBook,
    hands: &mut Vec<Worker>,
    ops: &[Op],
    gate: &G,
    remaker: &M,
)
    requires few { length ops.now < 2 ^ 32 }
    requires may { All (MayDoPhase region.now book.now ops.now) hands.old.items }
    ensures many { length hands.new.items ≡ length hands.old.items }
    ensures did { DidPhases region.now book.now ops.now hands.old.items hands.new.items }
    ensures place { vec_capacity hands.new ≡ vec_capacity hands.old }
{
    for_each_mut(
        rt,
        hands,
        MOST_HANDS,
        &|_, hand| perform(rt, region, indexes, book, hand, ops, gate, remaker),
    );
}

/// The hands act, and beside them the scavenger, with the threads that are lent to it, where one of the operations is its own.
pub(crate) fn act_with<R: Threads + Wait + Sync, G: Gate + Sync, M: Remake + Sync>(
    rt: &R,
    region: &SharedRegion,
    indexes: &[Mutex<LargeIndex>],
    book: &NameBook,
    hands: &mut Vec<Worker>,
    scavenger: &mut Scavenger,
    busy: bool,
    ops: &[Op],
    gate: &G,
    remaker: &M,
)
    requires few { length ops.now < 2 ^ 32 }
    requires threads { All (MayDoPhase region.now book.now ops.now) hands.old.items }
    requires scavenger { busy ≡ true → MayScavenge region.now ops.now scavenger.old }
    ensures many { length hands.new.items ≡ length hands.old.items }
    ensures threads { DidPhases region.now book.now ops.now hands.old.items hands.new.items }
    ensures did { busy ≡ true → DidScavenge region.now ops.now scavenger.old scavenger.new }
    ensures stayed { busy ≡ false → scavenger.new ≡ scavenger.old }
    ensures lent { (length scavenger.new.lent.items ≡ length scavenger.old.lent.items) × (vec_capacity scavenger.new.lent ≡ vec_capacity scavenger.old.lent) }
    ensures place { vec_capacity hands.new ≡ vec_capacity hands.old }
{
    if !busy {
        act_all(rt, region, indexes, book, hands, ops, gate, remaker);
        return;
    }
    let mut keep = ||
        requires { (length ops.now < 2 ^ 32) × MayScavenge region.now ops.now scavenger.now }
        ensures { DidScavenge region.entry.now ops.entry.now scavenger.entry.now scavenger.exit.now }
    { keep_up(region, scavenger, ops, gate) };
    let mut act = ||
        requires { (length ops.now < 2 ^ 32) × All (MayDoPhase region.now book.now ops.now) hands.now.items }
        ensures many { length hands.exit.now.items ≡ length hands.entry.now.items }
        ensures did { DidPhases region.entry.now book.entry.now ops.entry.now hands.entry.now.items hands.exit.now.items }
        ensures place { vec_capacity hands.exit.now ≡ vec_capacity hands.entry.now }
    { act_all(rt, region, indexes, book, hands, ops, gate, remaker) };
    join_mut(rt, &mut keep, &mut act);
}
