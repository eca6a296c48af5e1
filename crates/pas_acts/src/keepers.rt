//! What a keeper does at its desk: it tries guarded requests, and lowers all its guards at the close.
ghost use Rattle.std.specs.Prelude.{◌≡◌, ◌<◌, ℕ};
ghost use Rattle.pas_profile.specs.{Profiles.IsAdmitted, declared.profile.Profile.Profile as TheProfile};
ghost use Rattle.pas_answers.specs.{Answers.Progress, Calls.MayStand};
ghost use Rattle.pas_acts.specs.Keepers.{keeper_has, LaterKept, and_try, KeeperAt, KeeperTries, KeeperLowers};

use pas_guard::GuardBook;
use pas_profile::Block;
use pas_records::Records;
use pas_steps::Desk;

/// The keeper of this desk tries a guarded request of its thread: it lowers the guards whose blocks have ended, and raises one for the request, where it finds a
/// run. The block that it gave, if any. Where there is none, the request is the thread's.
pub fn try_guarded<D: Desk>(
    desk: &mut D,
    book: &mut GuardBook,
    name: u32,
    heap: u8,
    size: u32,
    align: u32,
    out: &mut Records,
) -> Option<Block>
    requires admitted { IsAdmitted (D.standing desk.old).seat.profile size align heap }
    requires large { 2048 < size }
    requires stands { (f : TheProfile) × (k : ℕ) × (later : LaterKept) × (p : Progress) × KeeperAt f k (keeper_has (D.standing desk.old) book.old out.old) (and_try size later) p }
    ensures tries { (f : TheProfile) (k : ℕ) (later : LaterKept) (p : Progress) → KeeperAt f k (keeper_has (D.standing desk.old) book.old out.old) (and_try size later) p
        → KeeperTries f k (record { name = name; heap = heap; size = size; align = align }) result (keeper_has (D.standing desk.old) book.old out.old) (keeper_has (D.standing desk.new) book.new out.new) later p }
    ensures stands { MayStand (D.standing desk.old).seat.profile result }
    ensures home { D.home desk.new ≡ D.home desk.old }
{
    pas_answers::try_guarded(desk, book, name, heap, size, align, out)
}

/// The keeper of this desk lowers all its guards, at the close.
pub fn lower_all<D: Desk>(desk: &mut D, book: &mut GuardBook, out: &mut Records)
    requires stands { (f : TheProfile) × (k : ℕ) × (later : LaterKept) × (p : Progress) × KeeperAt f k (keeper_has (D.standing desk.old) book.old out.old) later p }
    ensures lowers { (f : TheProfile) (k : ℕ) (later : LaterKept) (p : Progress) → KeeperAt f k (keeper_has (D.standing desk.old) book.old out.old) later p
        → KeeperLowers f k (keeper_has (D.standing desk.old) book.old out.old) (keeper_has (D.standing desk.new) book.new out.new) later p }
    ensures home { D.home desk.new ≡ D.home desk.old }
{
    pas_answers::lower_all(desk, book, out);
}

/// Who tries the guarded requests of a thread: its keeper, whom the thread lends its desk for it. A thread of a plan that isn't guarded has none, and asks nobody.
pub trait Tries<D: Desk> {
    ghost use Rattle.std.specs.Prelude.{◌≡◌, ◌≢◌, ◌<◌, ℕ};
    ghost use Rattle.pas_profile.specs.{Profiles.IsAdmitted, declared.profile.Profile.Profile as TheProfile};
    ghost use Rattle.pas_steps.specs.Lists.{Whole};
    ghost use Rattle.pas_answers.specs.Answers.{Progress};
    ghost use Rattle.pas_acts.specs.Keepers.{Keeping, LaterKept, MayTryAt, TriesAt, StandsAt, KeptStands};

    /// What tells one region from another of the same profile.
    type Home;

    /// The region at which the keeper sits down. No request changes it.
    ghost home: { Self → Self.Home };

    /// What the keeper has in hand, where there is one, while its thread has this desk.
    ghost has: { D → Self → Keeping };

    /// The keeper tries a guarded request of its thread. The block that it gave, if any.
    fn try_guarded(
        &mut self,
        desk: &mut D,
        name: u32,
        heap: u8,
        size: u32,
        align: u32,
    ) -> Option<Block>
        requires stands { (f : TheProfile) × (k : ℕ) × (later : LaterKept) × (p : Progress) × IsAdmitted f size align heap × (2048 < size) × MayTryAt f k size (has desk.old self.old) later p × StandsAt (D.standing desk.old) p.list × ((D.standing desk.old).seat.actor ≢ k) }
        ensures tries { (f : TheProfile) (k : ℕ) (later : LaterKept) (p : Progress) → MayTryAt f k size (has desk.old self.old) later p → StandsAt (D.standing desk.old) p.list → (D.standing desk.old).seat.actor ≢ k
            → TriesAt f k (record { name = name; heap = heap; size = size; align = align }) result (D.standing desk.old) (D.standing desk.new) (has desk.old self.old) (has desk.new self.new) later p }
        ensures home { home self.new ≡ home self.old }
        ensures desk { D.home desk.new ≡ D.home desk.old };

    /// While the thread acts, what the keeper has stands still.
    ghost still: { (keeper : Self) (old new : D) (l m : Whole) → D.home new ≡ D.home old → StandsAt (D.standing old) l → StandsAt (D.standing new) m → KeptStands (has old keeper) (has new keeper) l m };
}
