//! Who takes what a replay says, while it goes on.
ghost use Rattle.std.specs.Prelude.{◌≡◌, ◌≤◌, ◌++◌, ℕ, List, [], Option, Some, All, IfOk, MatchOption, length};
ghost use Rattle.pas_trace.specs.{Courses.{IsCourse, IsCourseOf}, declared.plan.Plan.Plan as ThePlan};
ghost use Rattle.pas_replay.specs.Taking.{room_for_taker};
ghost use Rattle.pas_records.specs.{Lines.CanShow, Rooms.{records_in, room_of}, declared.record.Record.Record as TheRecord};

use pas_acts::region_by;
use pas_profile::NoMemory;
use pas_records::Records;
use pas_trace::{Course, Operations};
use std::alloc::Global;

/// Takes the records of a replay, in order, while it goes on.
pub trait Takes {
    /// What it took from one moment to another one.
    ghost took: { Self → Self → List TheRecord → Type 0 };

    /// How many records wait at most, once it took some. None where any number may.
    ghost waits: { Option ℕ };

    /// Takes so many of the records that wait, the first ones, as it likes: they are out of the room then. Takes no memory.
    fn take(&mut self, out: &mut Records)
        requires shown { All CanShow (records_in out.old) }
        ensures taken { (first : List TheRecord) × (records_in out.old ≡ first ++ records_in out.new) × took self.old self.new first }
        ensures size { room_of out.new ≡ room_of out.old }
        ensures few { MatchOption waits (Unit {0}) (λ most. length (records_in out.new) ≤ most) };

    ghost nothing: { (t : Self) → took t t [] };

    ghost both: { (a b c : Self) (xs ys : List TheRecord) → took a b xs → took b c ys → took a c (xs ++ ys) };
}

/// Leaves all records where they are.
#[derive(Clone, Copy, Drop)]
pub(crate) struct Keeps;

impl Takes for Keeps {
    ghost use Rattle.std.{specs.Prelude.{◌≡◌, ◌++◌, List, [], None}, proofs.Common.{refl, ap, ◌∙◌}};
    ghost use Rattle.pas_records.specs.declared.record.Record.{Record as TheRecord};

    ghost took = { λ a b first. first ≡ [] };

    ghost waits = { None };

    ghost nothing = { λ t. refl };

    ghost both = { λ a b c xs ys one two. ap (λ (rs : List TheRecord). rs ++ ys) one ∙ two };

    #[inline(always)]
    fn take(&mut self, out: &mut Records) {}
}

/// Room for the records of a plan with this course whose taker leaves so many at most: for what one operation says beside them. NoMemory where memory was wanting.
pub fn records_for_taker<P: Operations>(
    alloc: Global,
    course: &Course<'_, P>,
    waits: u32,
) -> Result<Records, NoMemory>
    requires { IsCourse P.ops course.now }
    ensures empty { IfOk result (λ out. records_in out ≡ []) }
    ensures room { IfOk result (λ out. (plan : ThePlan) → IsCourseOf P.ops plan course.now → room_of out ≡ room_for_taker (Some waits) plan) }
{
    let profile = region_by(course);
    let (threads, pages) = (profile.threads as u64, profile.pages as u64);
    let room = waits as u64 + (threads * (pages + 64) + (pages + threads + 3));
    match u32::try_from(room) {
        Ok(room) => Records::try_new(alloc, room),
        Err(_) => Err(NoMemory),
    }
}
