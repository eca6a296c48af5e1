//! The phases of a replay on threads, one after the other, and the close.
ghost use Rattle.std.specs.Prelude.{◌≡◌, ◌+◌, ◌<◌, ◌^◌, ℕ, [], List, map, length};
ghost use Rattle.pas_bits.specs.Masks.{is_set};
ghost use Rattle.pas_trace.specs.{Plans.ops_of, Acts.is_active, declared.plan.Op.Op as TheOp};
ghost use Rattle.pas_records.specs.Rooms.{records_in};
ghost use Rattle.pas_answers.specs.{Replays.at_start, Answers.Progress};
ghost use Rattle.pas_acts.specs.{Works.Later, Keepers.LaterKept};
ghost use Rattle.pas_threads.specs.{Performing.{round, IsReady, HaveActed, IsHeard}, Sessions.{Session, StandSo, AreMarked, CloseDone, PhaseAt, PhaseDone}};
ghost use Rattle.pas_threads.specs.{Sessions.{TeamAt, HasRoom, HasReplayed}, Settling.SawMore};
ghost use Rattle.pas_shared.specs.Ledgers.{IsLedgerOf, so_far};

use crate::dealing::{deal, take_back};
use crate::hands::act_with;
use crate::scavenger::Scavenger;
use crate::settling::{hear_all, hear_if, settle};
use crate::turns::{close_all, gather, wake_all};
use crate::workers::{Worker, take_all};
use pas_acts::active;
use pas_acts::at_desk::SCAVENGER;
use pas_acts::gate::Gate;
use pas_acts::names::NameBook;
use pas_answers::Remake;
use pas_bits::Mask4;
use pas_large::LargeIndex;
use pas_records::{Record, Records};
use pas_shared::{Ledger, SharedRegion};
use pas_trace::{Op, Phase};
use std::sync::{Mutex, Wait};
use std::thread::Threads;

/// The number of the phase that begins without a mark.
const UNMARKED: u32 = 1;

/// All actors of a replay on threads, while none of them sits at the region, and what they share.
#[derive(Drop)]
pub(crate) struct Team {
    /// By thread, from thread 1 on.
    pub(crate) threads: Vec<Worker>,
    pub(crate) scavenger: Scavenger,
    /// Empty between two phases.
    pub(crate) hands: Vec<Worker>,
    pub(crate) book: NameBook,
}

/// The operations of a phase, by all hands at once, in as many threads of the system: the worker of each thread that has one, and the scavenger where one is
/// its own, with the threads that have none. `awake` has the numbers of those that have one.
fn perform_all<R: Threads + Wait + Sync, G: Gate + Sync, M: Remake + Sync>(
    rt: &R,
    region: &SharedRegion,
    indexes: &[Mutex<LargeIndex>],
    team: Team,
    awake: Mask4,
    ops: &[Op],
    gate: &G,
    remaker: &M,
) -> Team
    requires few { length ops.now < 2 ^ 32 }
    requires awake { (k : ℕ) → is_set awake k ≡ is_active ops.now k }
    requires ready { (s : Session) × (later : ℕ → Later) × (more : ℕ → LaterKept) × (p : Progress) × IsReady region.now (round s team.book ops.now later more p) team }
    ensures done { (s : Session) (later : ℕ → Later) (more : ℕ → LaterKept) (p : Progress) → IsReady region.now (round s team.book ops.now later more p) team
        → HaveActed region.now (round s team.book ops.now later more p) team result }
{
    let Team {
        mut threads,
        mut scavenger,
        mut hands,
        book,
    } = team;
    let count = threads.len() as u8;
    deal(&mut threads, awake, &mut hands, &mut scavenger.lent);
    let busy = awake.get(SCAVENGER);
    act_with(
        rt,
        region,
        indexes,
        &book,
        &mut hands,
        &mut scavenger,
        busy,
        ops,
        gate,
        remaker,
    );
    take_back(&mut threads, count, awake, &mut hands, &mut scavenger.lent);
    Team {
        threads,
        scavenger,
        hands,
        book,
    }
}

/// .. and the ledger hears in which order the actors of each hand made their steps. One load for each hand.
fn perform_and_hear<R: Threads + Wait + Sync, G: Gate + Sync, M: Remake + Sync>(
    rt: &R,
    region: &SharedRegion,
    ledger: &mut Ledger,
    indexes: &[Mutex<LargeIndex>],
    team: Team,
    awake: Mask4,
    ops: &[Op],
    gate: &G,
    remaker: &M,
) -> Team
    requires ledger { IsLedgerOf region.now ledger.old }
    requires few { length ops.now < 2 ^ 32 }
    requires awake { (k : ℕ) → is_set awake k ≡ is_active ops.now k }
    requires ready { (s : Session) × (later : ℕ → Later) × (more : ℕ → LaterKept) × (p : Progress) × IsReady region.now (round s team.book ops.now later more p) team }
    ensures ledger { IsLedgerOf region.now ledger.new }
    ensures saw { SawMore ledger.old ledger.new }
    ensures done { (s : Session) (later : ℕ → Later) (more : ℕ → LaterKept) (p : Progress) → IsReady region.now (round s team.book ops.now later more p) team
        → IsHeard region.now ledger.new (round s team.book ops.now later more p) team result }
{
    let mut team = perform_all(rt, region, indexes, team, awake, ops, gate, remaker);
    hear_all(region, ledger, &mut team.threads, 0, awake);
    let busy = awake.get(SCAVENGER);
    hear_if(region, ledger, &mut team.scavenger.bench, busy);
    team
}

/// One phase: its threads read the epoch, its operations are performed, and what was said is gathered, actor by actor. The ledger is settled before the operations, and after
/// them, once it heard in which order the actors of each hand made their steps.
fn perform_phase<R: Threads + Wait + Sync, G: Gate + Sync, M: Remake + Sync>(
    rt: &R,
    region: &SharedRegion,
    ledger: &mut Ledger,
    indexes: &[Mutex<LargeIndex>],
    team: Team,
    ops: &[Op],
    gate: &G,
    remaker: &M,
    out: &mut Records,
) -> Team
    requires ledger { IsLedgerOf region.now ledger.old }
    requires may { (s : Session) × (rest : List (List TheOp)) × (marks : ℕ) × (p : Progress) × PhaseAt region.now s ops.now rest marks team out.old p }
    ensures ledger { IsLedgerOf region.now ledger.new }
    ensures done { (s : Session) (rest : List (List TheOp)) (marks : ℕ) (p : Progress) → PhaseAt region.now s ops.now rest marks team out.old p → StandSo s (so_far ledger.old) p.list
        → PhaseDone region.now s ops.now rest marks result out.old out.new (so_far ledger.old) (so_far ledger.new) p }
{
    let awake = active(ops);
    let mut team = team;
    let threads = team.threads.as_mut_slice();
    wake_all(region, threads, awake);
    settle(region, ledger, &mut team.scavenger, threads);
    team.book.note(ops);
    let mut team = perform_and_hear(rt, region, ledger, indexes, team, awake, ops, gate, remaker);
    out.append(&mut team.scavenger.out);
    let workers = team.threads.as_mut_slice();
    gather(workers, out);
    take_all(&mut team.book, workers);
    settle(region, ledger, &mut team.scavenger, workers);
    team
}

/// The close: each thread is stopped, and then each keeper lowers its guards, and the ledger is settled after each of these; what they said is gathered.
fn finish(region: &SharedRegion, ledger: &mut Ledger, team: Team, out: &mut Records) -> Team
    requires ledger { IsLedgerOf region.now ledger.old }
    requires may { (s : Session) × (p : Progress) × TeamAt region.now s [] team p × AreMarked s p.records (records_in out.old) × HasRoom s [] 0 team.threads.items out.old p × StandSo s (so_far ledger.old) p.list }
    ensures ledger { IsLedgerOf region.now ledger.new }
    ensures done { (s : Session) (p : Progress) → TeamAt region.now s [] team p → AreMarked s p.records (records_in out.old) → HasRoom s [] 0 team.threads.items out.old p → StandSo s (so_far ledger.old) p.list
        → CloseDone region.now s result (records_in out.new) (so_far ledger.old) (so_far ledger.new) p }
{
    let mut team = team;
    let threads = team.threads.as_mut_slice();
    close_all(region, ledger, &mut team.scavenger, threads);
    gather(threads, out);
    team
}

/// Performs the phases in order, with a mark before each from the second on, and closes: a mark, the stop of each thread, and the last sweep of each keeper. The
/// operations of a phase are performed by as many threads as have one, all at once; the records of each phase come actor by actor. The ledger is settled after the
/// reads of the epoch and after the operations of each phase, and after each stop and each last sweep. Takes no memory.
pub(crate) fn replay<R: Threads + Wait + Sync, G: Gate + Sync, M: Remake + Sync>(
    rt: &R,
    region: &SharedRegion,
    indexes: &[Mutex<LargeIndex>],
    ledger: &mut Ledger,
    team: Team,
    phases: &[Phase],
    gate: &G,
    remaker: &M,
    out: &mut Records,
) -> Team
    requires ledger { IsLedgerOf region.now ledger.old × (so_far ledger.old ≡ []) }
    requires phases { length phases.now < 2 ^ 32 }
    requires empty { records_in out.old ≡ [] }
    requires stands { (s : Session) × TeamAt region.now s (map ops_of phases.now) team at_start × HasRoom s (map ops_of phases.now) (length phases.now + 1) team.threads.items out.old at_start }
    ensures replayed { (s : Session) → TeamAt region.now s (map ops_of phases.now) team at_start → HasRoom s (map ops_of phases.now) (length phases.now + 1) team.threads.items out.old at_start
        → HasReplayed region.now s (map ops_of phases.now) (so_far ledger.new) result (records_in out.new) }
    ensures ledger { IsLedgerOf region.now ledger.new }
{
    let mut team = team;
    let mut number = 0;
    for phase in phases {
        number += 1;
        if number > UNMARKED {
            out.push(Record::Phase(number));
        }
        team = perform_phase(
            rt,
            region,
            ledger,
            indexes,
            team,
            phase.as_slice(),
            gate,
            remaker,
            out,
        );
    }
    out.push(Record::Close);
    finish(region, ledger, team, out)
}
