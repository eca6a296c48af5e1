//! All actors have risen, and all steps so far come into the ledger of the region, in the order of which the benches tell that workers left.
ghost use Rattle.std.specs.Prelude.{◌≡◌, ◌+◌, ◌<◌, ℕ, All, true, suc, length, get_or};
ghost use Rattle.pas_bits.specs.Masks.{is_set};
ghost use Rattle.pas_steps.specs.Lists.{Whole};
ghost use Rattle.pas_shared.specs.{Ledgers.{IsLedgerOf, so_far}, Passes.IsPassOf};
ghost use Rattle.pas_threads.specs.{Pairs.IsKeeperOf, Sessions.{Session, StandSo}, Settling.{Settled, StandsIn, KeeperStandsIn, WorkerStandsIn, IsUp}};
ghost use Rattle.pas_threads.specs.{Settling.{ActorsStand, SawMore, HasHeard, HasBench, IsButBench}, declared.workers.Worker.Worker as TheWorker};

use crate::keeper::Keeper;
use crate::scavenger::Scavenger;
use crate::workers::Worker;
use pas_bits::Mask4;
use pas_shared::{Bench, Ledger, SharedPass, SharedRegion};

/// The ledger takes in the actor of this pass, then this keeper, if it is there, and the actors of these workers; it looks, and gives them their passes back.
#[cycle(settling)]
fn settle_with(
    region: &SharedRegion,
    ledger: &mut Ledger,
    pass: SharedPass,
    keeper: Option<Keeper>,
    workers: &mut [Worker],
) -> (SharedPass, Option<Keeper>)
    requires of { IsLedgerOf region.now ledger.old }
    requires pass { IsPassOf region.now pass }
    requires keeper { IsKeeperOf region.now keeper }
    requires workers { All (IsUp region.now) workers.old }
    ensures same { (result.0 ≡ pass) × (result.1 ≡ keeper) × (workers.new ≡ workers.old) }
    ensures settled { Settled ledger.old ledger.new }
    ensures stand { StandsIn (so_far ledger.new) pass × KeeperStandsIn (so_far ledger.new) keeper × All (WorkerStandsIn (so_far ledger.new)) workers.old }
{
    let rest = ledger.take_in(region, pass);
    let keeper = settle_keeper(region, ledger, keeper, workers);
    (ledger.give_back(region, rest), keeper)
}

/// .. this keeper, if it is there, and the actors of these workers.
#[cycle(settling)]
fn settle_keeper(
    region: &SharedRegion,
    ledger: &mut Ledger,
    keeper: Option<Keeper>,
    workers: &mut [Worker],
) -> Option<Keeper>
    requires of { IsLedgerOf region.now ledger.old }
    requires keeper { IsKeeperOf region.now keeper }
    requires workers { All (IsUp region.now) workers.old }
    ensures same { (result ≡ keeper) × (workers.new ≡ workers.old) }
    ensures settled { Settled ledger.old ledger.new }
    ensures stand { KeeperStandsIn (so_far ledger.new) keeper × All (WorkerStandsIn (so_far ledger.new)) workers.old }
{
    let Some(keeper) = keeper else {
        settle_workers(region, ledger, workers);
        return None;
    };
    let Keeper { pass, book, out } = keeper;
    let (pass, _) = settle_with(region, ledger, pass, None, workers);
    Some(Keeper { pass, book, out })
}

/// .. the actors of these workers, of each the thread and its keeper.
#[cycle(settling)]
fn settle_workers(region: &SharedRegion, ledger: &mut Ledger, workers: &mut [Worker])
    requires of { IsLedgerOf region.now ledger.old }
    requires workers { All (IsUp region.now) workers.old }
    ensures same { workers.new ≡ workers.old }
    ensures settled { Settled ledger.old ledger.new }
    ensures stand { All (WorkerStandsIn (so_far ledger.new)) workers.old }
{
    let Some((worker, others)) = workers.split_first_mut() else {
        ledger.look(region);
        return;
    };
    let Some(pass) = worker.pass.take() else {
        unreachable!();
    };
    let (pass, keeper) = settle_with(region, ledger, pass, worker.keeper.take(), others);
    worker.pass = Some(pass);
    worker.keeper = keeper;
}

/// All actors have risen. The ledger has all their steps then, and nothing of them changed. Costs four loads for each actor, and one more.
pub(crate) fn settle(
    region: &SharedRegion,
    ledger: &mut Ledger,
    scavenger: &mut Scavenger,
    threads: &mut [Worker],
)
    requires of { IsLedgerOf region.now ledger.old }
    requires stand { (s : Session) × (l : Whole) × ActorsStand region.now s scavenger.old.pass threads.old l }
    ensures same { threads.new ≡ threads.old }
    ensures scavenger { scavenger.new ≡ scavenger.old }
    ensures settled { Settled ledger.old ledger.new }
    ensures of { IsLedgerOf region.now ledger.new }
    ensures stand { (s : Session) (l : Whole) → ActorsStand region.now s scavenger.old.pass threads.old l → StandSo s (so_far ledger.new) l }
{
    let Some(pass) = scavenger.pass.take() else {
        unreachable!();
    };
    let (pass, _) = settle_with(region, ledger, pass, None, threads);
    scavenger.pass = Some(pass);
}

/// The ledger takes over what the bench in this place saw, which its worker left, if it had something to do. One load.
pub(crate) fn hear_if(
    region: &SharedRegion,
    ledger: &mut Ledger,
    left: &mut Option<Bench>,
    busy: bool,
)
    requires of { IsLedgerOf region.now ledger.old }
    requires bench { busy ≡ true → HasBench region.now left.old }
    ensures of { IsLedgerOf region.now ledger.new }
    ensures saw { SawMore ledger.old ledger.new }
    ensures heard { busy ≡ true → HasHeard ledger.new left.old }
{
    if !busy {
        return;
    }
    let Some(bench) = left.take() else {
        unreachable!();
    };
    ledger.hear(region, bench);
}

/// .. what the benches saw of those of these workers that are of the mask, where so many threads are before them. One load for each.
pub(crate) fn hear_all(
    region: &SharedRegion,
    ledger: &mut Ledger,
    workers: &mut [Worker],
    below: u8,
    awake: Mask4,
)
    requires few { below + length workers.old < 32 }
    requires of { IsLedgerOf region.now ledger.old }
    requires left { (i k : ℕ) (d : TheWorker) → i < length workers.old → k ≡ below + suc i → is_set awake k ≡ true → HasBench region.now (get_or workers.old i d).bench }
    ensures of { IsLedgerOf region.now ledger.new }
    ensures saw { SawMore ledger.old ledger.new }
    ensures heard { (i k : ℕ) (d : TheWorker) → i < length workers.old → k ≡ below + suc i → is_set awake k ≡ true → HasHeard ledger.new (get_or workers.old i d).bench }
    ensures same { (i : ℕ) (d : TheWorker) → i < length workers.old → IsButBench (get_or workers.old i d) (get_or workers.new i d) }
    ensures many { length workers.new ≡ length workers.old }
{
    let Some((worker, others)) = workers.split_first_mut() else {
        return;
    };
    let thread = below + 1;
    hear_if(region, ledger, &mut worker.bench, awake.get(thread));
    hear_all(region, ledger, others, thread, awake);
}
