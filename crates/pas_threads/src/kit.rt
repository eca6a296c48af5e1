//! The kit of a replay on threads. `making` makes its parts, `ahead` what can be made before the plan is known, as large as `estimate` guesses.
ghost use Rattle.std.specs.Prelude.{◌≡◌, ℕ, List, IfOk};
ghost use Rattle.pas_trace.specs.Plans.{IsPlanOf};
ghost use Rattle.pas_shared.specs.Passes.{profile_of_opening};
ghost use Rattle.pas_answers.specs.Replays.{region_of};
ghost use Rattle.pas_threads.specs.Kits.{IsKitOf};

use crate::ahead::{Ahead, Spare};
use crate::making::{indexes_for, move_rooms, team_for};
use crate::phases::Team;
use pas_acts::{region_of, rooms_of};
use pas_large::LargeIndex;
use pas_profile::{EventRoom, NoMemory};
use pas_shared::{Opening, SharedPass, SharedRegion};
use pas_trace::Plan;
use pas_utility::Utility;
use std::alloc::Global;
use std::sync::Mutex;

/// All that a replay on threads needs: the region, an index for each heap, the workers of all actors with their rooms, and the names. Once it is made nothing takes memory.
#[derive(Drop)]
pub struct SharedKit {
    pub(crate) region: SharedRegion,
    /// By heap: the pages where large blocks ended, which a large request is given first. Each has a lock of its own.
    pub(crate) indexes: Vec<Mutex<LargeIndex>>,
    pub(crate) team: Team,
    /// None yet, with a place for that of each actor: with them the region is closed.
    pub(crate) passes: Vec<SharedPass>,
}

impl SharedKit {
    /// The kit of a plan: its rooms are as large as the bounds of the plan's actors say, and the thread that speaks first has room for the records of all. NoMemory
    /// where memory was wanting. Costs two passes over the words of the region, one over the plan and one more over its first phase, and two over the numbers of
    /// its names.
    pub fn try_new(alloc: Global, plan: &Plan) -> Result<SharedKit, NoMemory>
        requires { (text : List ℕ) × IsPlanOf text plan.now }
        ensures { IfOk result (λ kit. IsKitOf plan.now kit) }
    {
        let opening = Opening::try_new(alloc, region_of(plan))?;
        SharedKit::made_at(alloc, plan, opening, Vec::new(alloc), Spare::none(alloc)?)
    }

    /// The kit of a plan, as `try_new` gives it, of what was made ahead, as far as that serves: at its region where that is the one of a replay of the plan, which has no keeper, and with its
    /// rooms where they are large enough. The rest is let go. NoMemory where memory was wanting. Where all of it serves, it costs one pass over the plan, and one
    /// more over its first phase. A room stands twice while it moves into the memory that was made for it.
    pub fn try_new_of(alloc: Global, plan: &Plan, ahead: Ahead) -> Result<SharedKit, NoMemory>
        requires { (text : List ℕ) × IsPlanOf text plan.now }
        ensures { IfOk result (λ kit. IsKitOf plan.now kit) }
    {
        let Ahead {
            opening,
            events,
            spare,
        } = ahead;
        if *opening.profile() == region_of(plan) {
            return SharedKit::made_at(alloc, plan, opening, events, spare);
        }
        drop(opening);
        let opening = Opening::try_new(alloc, region_of(plan))?;
        SharedKit::made_at(alloc, plan, opening, events, spare)
    }

    /// The kit of a plan at this region, which has the plan's profile, with these rooms for events and what else was made before where they are
    /// large enough.
    fn made_at(
        alloc: Global,
        plan: &Plan,
        opening: Opening,
        events: Vec<EventRoom>,
        before: Spare,
    ) -> Result<SharedKit, NoMemory>
        requires plan { (text : List ℕ) × IsPlanOf text plan.now }
        requires profile { profile_of_opening opening ≡ region_of plan.now }
        ensures { IfOk result (λ kit. IsKitOf plan.now kit) }
    {
        let profile = region_of(plan);
        let bounds = plan.bounds.as_slice();
        let mut utility = Utility::try_new(alloc, &profile, bounds)?;
        let mut rooms = rooms_of(alloc, &mut utility, profile.threads)?;
        move_rooms(&mut rooms, events);
        let (region, mut others) = SharedRegion::try_new_at(alloc, opening, rooms)?;
        let first = others.remove(0);
        let team = team_for(alloc, plan, &mut utility, first, others, before)?;
        let Ok(passes) = Vec::with_capacity(alloc, profile.threads as usize + 1) else {
            return Err(NoMemory);
        };
        let indexes = indexes_for(alloc, plan.profile.heaps)?;
        Ok(SharedKit {
            region,
            indexes,
            team,
            passes,
        })
    }
}
