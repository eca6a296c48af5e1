//! The workers of a phase are dealt into the hands that act in it and those that are lent, and taken back.
ghost use Rattle.std.specs.Prelude.{◌≡◌, ◌<◌, ◌≤◌, ◌++◌, [], ◌∷◌, true, false, length, vec_capacity};
ghost use Rattle.pas_bits.specs.Masks.{is_set};
ghost use Rattle.pas_threads.specs.Dealing.{IsPut, AreDealt, AreSized};

use crate::workers::Worker;
use pas_bits::Mask4;

/// The worker goes behind the hands where its thread is awake, and behind those that are lent otherwise.
fn put(worker: Worker, awake: bool, hands: &mut Vec<Worker>, lent: &mut Vec<Worker>)
    requires hands { length hands.old.items < vec_capacity hands.old }
    requires lent { length lent.old.items < vec_capacity lent.old }
    ensures put { IsPut awake worker hands.old.items lent.old.items hands.new.items lent.new.items }
    ensures places { (vec_capacity hands.new ≡ vec_capacity hands.old) × (vec_capacity lent.new ≡ vec_capacity lent.old) }
{
    if awake {
        hands.push_reserved(worker);
    } else {
        lent.push_reserved(worker);
    }
}

/// Deals the workers of the threads, from thread 1 on: those of the mask become hands of the phase, and the others are lent to the scavenger.
pub(crate) fn deal(
    threads: &mut Vec<Worker>,
    awake: Mask4,
    hands: &mut Vec<Worker>,
    lent: &mut Vec<Worker>,
)
    requires few { length threads.old.items < 32 }
    requires hands { (hands.old.items ≡ []) × (length threads.old.items ≤ vec_capacity hands.old) }
    requires lent { (lent.old.items ≡ []) × (length threads.old.items ≤ vec_capacity lent.old) }
    ensures dealt { AreDealt (is_set awake) threads.old.items hands.new.items lent.new.items }
    ensures none { threads.new.items ≡ [] }
    ensures places { (vec_capacity threads.new ≡ vec_capacity threads.old) × (vec_capacity hands.new ≡ vec_capacity hands.old) × (vec_capacity lent.new ≡ vec_capacity lent.old) }
{
    threads.reverse();
    let mut actor = 0;
    while let Some(worker) = threads.pop() {
        actor += 1;
        put(worker, awake.get(actor), hands, lent);
    }
}

/// Takes the last worker out.
fn pop_one(workers: &mut Vec<Worker>) -> Worker
    requires { 0 < length workers.old.items }
    ensures items { workers.old.items ≡ workers.new.items ++ result ∷ [] }
    ensures place { vec_capacity workers.new ≡ vec_capacity workers.old }
{
    let Some(worker) = workers.pop() else {
        unreachable!();
    };
    worker
}

/// The worker that was put there last: of a thread that was awake or of one that wasn't.
fn take_last(awake: bool, hands: &mut Vec<Worker>, lent: &mut Vec<Worker>) -> Worker
    requires hands { awake ≡ true → 0 < length hands.old.items }
    requires lent { awake ≡ false → 0 < length lent.old.items }
    ensures taken { IsPut awake result hands.new.items lent.new.items hands.old.items lent.old.items }
    ensures places { (vec_capacity hands.new ≡ vec_capacity hands.old) × (vec_capacity lent.new ≡ vec_capacity lent.old) }
{
    if awake {
        return pop_one(hands);
    }
    pop_one(lent)
}

/// Takes the workers of so many threads back, the last one first: those of the mask from the hands, and the others from those that were lent.
pub(crate) fn take_back(
    threads: &mut Vec<Worker>,
    count: u8,
    awake: Mask4,
    hands: &mut Vec<Worker>,
    lent: &mut Vec<Worker>,
)
    requires none { (threads.old.items ≡ []) × (count ≤ vec_capacity threads.old) }
    requires sized { AreSized (is_set awake) count hands.old.items lent.old.items }
    ensures dealt { AreDealt (is_set awake) threads.new.items hands.old.items lent.old.items }
    ensures many { length threads.new.items ≡ count }
    ensures none { (hands.new.items ≡ []) × (lent.new.items ≡ []) }
    ensures places { (vec_capacity threads.new ≡ vec_capacity threads.old) × (vec_capacity hands.new ≡ vec_capacity hands.old) × (vec_capacity lent.new ≡ vec_capacity lent.old) }
{
    let mut left = count;
    while left > 0 {
        let worker = take_last(awake.get(left), hands, lent);
        threads.push_reserved(worker);
        left -= 1;
    }
    threads.reverse();
}
