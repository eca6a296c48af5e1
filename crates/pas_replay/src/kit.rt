//! All that a replay needs, and the replay.

ghost use Rattle.std.specs.Prelude.{◌≡◌, ◌≤◌, ◌<◌, ◌+◌, ◌++◌, ℕ, List, IfOk, Some, [], length, map};
ghost use Rattle.pas_trace.specs.{Courses.{IsCourse, IsCourseOf}, Plans.IsPlanOf, declared.plan.Plan.Plan as ThePlan};
ghost use Rattle.pas_answers.specs.{Replays.{phases_of, Shows}, Ways.InOrder};
ghost use Rattle.pas_large.specs.Doors.{no_ranges};
ghost use Rattle.pas_replay.specs.{Kits.{IsKitOf, MayReplay}, Taking.room_for_taker};
ghost use Rattle.pas_records.specs.{Rooms.{records_in, room_of}, declared.record.Record.Record as TheRecord};

use crate::order::replay;
use crate::seats::Actors;
use crate::taking::{Keeps, Takes};
use pas_acts::{books_by, caches_for, outcomes_from, region_by, rooms_of};
use pas_answers::Remake;
use pas_answers::names::Names;
use pas_large::LargeIndex;
use pas_plain::{PlainPass, PlainRegion, close};
use pas_profile::NoMemory;
use pas_records::Records;
use pas_steps::State;
use pas_trace::{Course, Operations, Plan};
use pas_utility::Utility;
use std::alloc::Global;

/// All that a replay needs: the region, the actors with their passes and caches, an index for each heap, and the table of names. Once it is made nothing takes
/// memory.
#[derive(Drop)]
pub struct PlainKit {
    region: PlainRegion,
    actors: Actors,
    names: Names,
    /// None is left: with it the region is closed.
    passes: Vec<PlainPass>,
}

/// The passes at the places of their actors. They are taken out of the list.
fn places_for(
    alloc: Global,
    passes: &mut Vec<PlainPass>,
) -> Result<Vec<Option<PlainPass>>, NoMemory>
    ensures places { IfOk result (λ places. places.items ≡ map Some passes.old.items) }
    ensures none { IfOk result (λ places. passes.new.items ≡ []) }
{
    let Ok(mut places) = Vec::with_capacity(alloc, passes.len()) else {
        return Err(NoMemory);
    };
    passes.reverse();
    while let Some(pass) = passes.pop() {
        places.push_reserved(Some(pass));
    }
    Ok(places)
}

/// An index for each of so many heaps, which holds nothing. NoMemory where memory was wanting; an index has some 4 KB.
fn indexes_for(alloc: Global, heaps: u8) -> Result<Vec<LargeIndex>, NoMemory>
    ensures { IfOk result (λ indexes. indexes.items ≡ no_ranges heaps) }
{
    let Ok(mut indexes) = Vec::with_capacity(alloc, heaps as usize) else {
        return Err(NoMemory);
    };
    for heap in 0..heaps {
        indexes.push_reserved(LargeIndex::new());
    }
    Ok(indexes)
}

impl PlainKit {
    /// The kit of a plan. NoMemory where memory was wanting. Costs one pass over the words of the region and over the names.
    pub fn try_new(alloc: Global, plan: &Plan) -> Result<PlainKit, NoMemory>
        requires { (text : List ℕ) × IsPlanOf text plan.now }
        ensures { IfOk result (λ kit. IsKitOf plan.now kit) }
    {
        PlainKit::for_course(alloc, &plan.course())
    }

    /// The kit of a plan with this course.
    pub fn for_course<P: Operations>(
        alloc: Global,
        course: &Course<'_, P>,
    ) -> Result<PlainKit, NoMemory>
        requires { IsCourse P.ops course.now }
        ensures { IfOk result (λ kit. (text : List ℕ) (plan : ThePlan) → IsPlanOf text plan → IsCourseOf P.ops plan course.now → IsKitOf plan kit) }
    {
        let profile = region_by(course);
        let mut utility = Utility::try_new(alloc, &profile, course.bounds)?;
        let rooms = rooms_of(alloc, &mut utility, profile.threads)?;
        let (region, mut passes) = PlainRegion::try_new(alloc, profile, rooms)?;
        let places = places_for(alloc, &mut passes)?;
        let caches = caches_for(alloc, &mut utility, course.profile.threads)?;
        let names = Names::try_new(alloc, course.names_limit)?;
        let indexes = indexes_for(alloc, course.profile.heaps)?;
        let actors = Actors {
            passes: places,
            caches,
            books: books_by(alloc, course)?,
            outcomes: outcomes_from(&mut utility),
            indexes,
        };
        Ok(PlainKit {
            region,
            actors,
            names,
            passes,
        })
    }
}

/// Replays the plan in the order of the text, and says what was done. The state of the region at the end, at which no actor holds a grain, has
/// a right or owes anything. A request is refused only where nothing could serve it then. One for whole pages asks the index of its heap, which names the
/// first pages of its lowest range that is long enough: these serve exactly where each is one of the heap's large pages, offered and free. Takes no memory.
pub fn in_order<M: Remake>(plan: &Plan, kit: PlainKit, remake: &M, out: &mut Records) -> State
    requires plan { (text : List ℕ) × (length text ≤ 16777216) × IsPlanOf text plan.now }
    requires kit { IsKitOf plan.now kit }
    requires empty { records_in out.old ≡ [] }
    requires room { plan.now.total + length (phases_of plan.now) + 1 ≤ room_of out.old }
    ensures { Shows InOrder plan.now (records_in out.new) result }
{
    in_order_to(&plan.course(), kit, remake, out, &mut Keeps)
}

/// The same of a plan with this course, while the taker takes what was said, after each operation: `out` has room for what waits, and keeps at the end what the
/// taker left. What it took, and then what waits, is what `in_order` says. Takes no memory.
pub fn in_order_to<M: Remake, P: Operations, T: Takes>(
    course: &Course<'_, P>,
    kit: PlainKit,
    remake: &M,
    out: &mut Records,
    taker: &mut T,
) -> State
    requires plan { (text : List ℕ) × (plan : ThePlan) × MayReplay P.ops T.waits course.now kit text plan out.old }
    requires empty { records_in out.old ≡ [] }
    ensures { (told : List TheRecord) × T.took taker.old taker.new told
        × ((text : List ℕ) (plan : ThePlan) → MayReplay P.ops T.waits course.now kit text plan out.old → Shows InOrder plan (told ++ records_in out.new) result) }
{
    let PlainKit {
        region,
        mut actors,
        mut names,
        passes,
    } = kit;
    let region = replay(
        region,
        &mut actors,
        &mut names,
        remake,
        course.phases,
        out,
        taker,
    );
    close(region, passes)
}
