//! What one actor does for acts of its own, at any desk: operations and stops of a thread, and the acts of the scavenger. It knows no table of names.
ghost use Rattle.std.specs.Prelude.{◌≡◌, ◌<◌, ◌^◌, ℕ, [], ◌∷◌};
ghost use Rattle.pas_profile.specs.declared.profile.Profile.{Profile as TheProfile};
ghost use Rattle.pas_cache.specs.Caches.{cached};
ghost use Rattle.pas_records.specs.Rooms.{Records as TheRecords};
ghost use Rattle.pas_utility.specs.Outcomes.{places_of};
ghost use Rattle.pas_trace.specs.{Acts.{Operates, Settles, StopsIdle, Ticks, MakesPass, ReadsEpoch}, declared.plan.Op.Op as TheOp};
ghost use Rattle.pas_answers.specs.{Answers.Progress, Calls.{what_of, MayStand, named_by}};
ghost use Rattle.pas_acts.specs.{Works.Later, Turns.RestsAt, AtDesks.{here, told_if, MayOperate, GoesThrough, ThreadActs, for_act, HasRoomAt, ScavengerActs}};

use pas_answers::{Remake, answer_meant, answer_stop, is_idle_for};
use pas_cache::ThreadCache;
use pas_large::Door;
use pas_profile::{Block, Word};
use pas_records::Records;
use pas_steps::Desk;
use pas_trace::Task;
use pas_utility::Outcomes;

/// The scavenger's number.
pub const SCAVENGER: u8 = 0;

/// Does a task of the desk's thread, for which a request for whole pages asks the door, and hands it the runs of large blocks that its cache noted. `meant` is
/// the block that the name stands for which a `Task::Free` frees or a `Task::Remake` reallocates, if any, and the result the block that the asked name of a
/// `Task::Request` or a `Task::Remake` stands for from then on; None for every other task. This answers each operation of the thread that asks for the task.
#[inline(always)]
pub fn operate<D: Desk, O: Door, M: Remake>(
    desk: &mut D,
    door: &mut O,
    cache: &mut ThreadCache,
    remaker: &M,
    task: Task,
    meant: Option<Block>,
    out: &mut Records,
) -> Option<Block>
    requires stands { (f : TheProfile) × (op : TheOp) × (later : Later) × (p : Progress) × (op.what ≡ what_of task) × MayOperate f op.actor op.what meant (here (D.standing desk.old) (cached cache.old) out.old) later p }
    ensures operates { (f : TheProfile) (op : TheOp) (later : Later) (p : Progress) → op.what ≡ what_of task → MayOperate f op.actor op.what meant (here (D.standing desk.old) (cached cache.old) out.old) later p
        → (did : ThreadActs f op.actor (Operates op ∷ (Settles op.actor ∷ [])) (named_by op.what result) [] (here (D.standing desk.old) (cached cache.old) out.old) (here (D.standing desk.new) (cached cache.new) out.new) later p)
        × GoesThrough O.answers O.settles f op p did.reached did.reaches door.old door.new }
    ensures stands { MayStand (D.standing desk.old).seat.profile result }
    ensures home { D.home desk.new ≡ D.home desk.old }
{
    let came = answer_meant(desk, door, cache, remaker, task, meant, out);
    cache.settle(door);
    came
}

/// Stops the thread of this desk, where it was idle for so many epochs, now that it is this one: whether it did. The records of its flush come to its
/// own; that it was stopped is for the caller to say.
pub fn stop_if_idle<D: Desk>(
    desk: &mut D,
    cache: &mut ThreadCache,
    epochs: u64,
    epoch: u64,
    out: &mut Records,
) -> bool
    requires stands { (f : TheProfile) × (k : ℕ) × (later : Later) × (p : Progress) × RestsAt f k (D.standing desk.old) (cached cache.old) out.old later p }
    ensures stops { (f : TheProfile) (k : ℕ) (later : Later) (p : Progress) → RestsAt f k (D.standing desk.old) (cached cache.old) out.old later p → p.epoch ≡ epoch
        → ThreadActs f k (StopsIdle k epochs ∷ []) [] (told_if result k) (here (D.standing desk.old) (cached cache.old) out.old) (here (D.standing desk.new) (cached cache.new) out.new) later p }
    ensures home { D.home desk.new ≡ D.home desk.old }
{
    if is_idle_for(cache, epochs, epoch) {
        answer_stop(desk, cache, out);
        true
    } else {
        false
    }
}

/// Raises the epoch to at least this, which is below 2^40. One step and one record.
pub fn tick<D: Desk>(desk: &mut D, epoch: u64, out: &mut Records)
    requires epoch { epoch < 2 ^ 40 }
    requires stands { (f : TheProfile) × (later : Later) × (p : Progress) × HasRoomAt f (D.standing desk.old) out.old (for_act f (Ticks epoch) later) p }
    ensures ticks { (f : TheProfile) (later : Later) (p : Progress) → HasRoomAt f (D.standing desk.old) out.old (for_act f (Ticks epoch) later) p
        → ScavengerActs f (Ticks epoch) (D.standing desk.old) (D.standing desk.new) out.old out.new later p }
    ensures home { D.home desk.new ≡ D.home desk.old }
{
    pas_answers::tick(desk, epoch, out);
}

/// Makes a pass over the pages that are hinted as empty. One record, and one for each outcome, of which there are at most as many as pages.
#[tactic(auto, using(crate::proofs::AtDesk::can_scavenge))]
pub fn pass<D: Desk>(desk: &mut D, outcomes: &mut Outcomes, out: &mut Records)
    requires stands { (f : TheProfile) × (later : Later) × (p : Progress) × HasRoomAt f (D.standing desk.old) out.old (for_act f MakesPass later) p }
    requires places { places_of outcomes.old ≡ (D.standing desk.old).seat.profile.pages }
    ensures passes { (f : TheProfile) (later : Later) (p : Progress) → HasRoomAt f (D.standing desk.old) out.old (for_act f MakesPass later) p
        → ScavengerActs f MakesPass (D.standing desk.old) (D.standing desk.new) out.old out.new later p }
    ensures places { places_of outcomes.new ≡ places_of outcomes.old }
    ensures home { D.home desk.new ≡ D.home desk.old }
{
    pas_answers::pass(desk, outcomes, out);
}

/// Reads the epoch, for an idle operation. One step.
pub fn read_epoch<D: Desk>(desk: &mut D) -> u64
    requires stands { (f : TheProfile) × (out : TheRecords) × (later : Later) × (p : Progress) × HasRoomAt f (D.standing desk.old) out (for_act f ReadsEpoch later) p }
    ensures reads { (f : TheProfile) (out : TheRecords) (later : Later) (p : Progress) → HasRoomAt f (D.standing desk.old) out (for_act f ReadsEpoch later) p
        → (did : ScavengerActs f ReadsEpoch (D.standing desk.old) (D.standing desk.new) out out later p) × (did.reached.epoch ≡ result) }
    ensures home { D.home desk.new ≡ D.home desk.old }
{
    desk.look(Word::Epoch)
}
