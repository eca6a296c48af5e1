//! What a thread does alone, at any desk: it reads the epoch as a phase begins, and is stopped at the close.
ghost use Rattle.std.specs.Prelude.{◌≡◌, ℕ, [], ◌∷◌};
ghost use Rattle.pas_profile.specs.declared.profile.Profile.{Profile as TheProfile};
ghost use Rattle.pas_records.specs.Rooms.{Records as TheRecords};
ghost use Rattle.pas_cache.specs.Caches.{cached};
ghost use Rattle.pas_trace.specs.Acts.{Wakes, Ends};
ghost use Rattle.pas_answers.specs.Answers.{Progress};
ghost use Rattle.pas_acts.specs.{Works.Later, Turns.RestsAt, AtDesks.{here, ThreadActs}};

use pas_answers::answer_stop;
use pas_cache::ThreadCache;
use pas_records::Records;
use pas_steps::Desk;

/// The thread of this desk reads the epoch, as a phase begins in which it has an operation. One step, and nothing is said.
pub fn begin<D: Desk>(desk: &mut D, cache: &mut ThreadCache)
    requires rests { (f : TheProfile) × (k : ℕ) × (out : TheRecords) × (later : Later) × (p : Progress) × RestsAt f k (D.standing desk.old) (cached cache.old) out later p }
    ensures begins { (f : TheProfile) (k : ℕ) (out : TheRecords) (later : Later) (p : Progress) → RestsAt f k (D.standing desk.old) (cached cache.old) out later p
        → (did : ThreadActs f k (Wakes k ∷ []) [] [] (here (D.standing desk.old) (cached cache.old) out) (here (D.standing desk.new) (cached cache.new) out) later p) × (did.own ≡ []) }
    ensures home { D.home desk.new ≡ D.home desk.old }
{
    cache.begin(desk);
}

/// The thread of this desk is stopped, at the close: its log is flushed, and its cache is empty then. What the flush says comes to its records.
pub fn end<D: Desk>(desk: &mut D, cache: &mut ThreadCache, out: &mut Records)
    requires rests { (f : TheProfile) × (k : ℕ) × (later : Later) × (p : Progress) × RestsAt f k (D.standing desk.old) (cached cache.old) out.old later p }
    ensures ends { (f : TheProfile) (k : ℕ) (later : Later) (p : Progress) → RestsAt f k (D.standing desk.old) (cached cache.old) out.old later p
        → ThreadActs f k (Ends k ∷ []) [] [] (here (D.standing desk.old) (cached cache.old) out.old) (here (D.standing desk.new) (cached cache.new) out.new) later p }
    ensures empty { (cached cache.new).locals ≡ [] }
    ensures home { D.home desk.new ≡ D.home desk.old }
{
    answer_stop(desk, cache, out);
}
