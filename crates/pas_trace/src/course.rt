//! What a replay goes by.
ghost use Rattle.std.specs.Prelude.{map};
ghost use Rattle.pas_trace.specs.{Codes.unlined, Courses.IsCourseOf, Plans.ops_of, Scripts.{IsScriptFor, coded_ops}, declared.plan.Plan.Plan as ThePlan};

use crate::plan::{Phase, Plan};
use crate::script::{CodedPhase, Script};
use pas_profile::Profile;

/// What a replay in the order of the text needs of a plan or of a script: nobody asks for lines of operations.
#[derive(Drop)]
pub struct Course<'a, P> {
    pub profile: Profile,
    pub guard: u32,
    pub bounds: &'a [u32],
    pub total: u32,
    pub names_limit: usize,
    pub phases: &'a [P],
}

impl Plan {
    /// The course of the plan.
    pub fn course(&self) -> Course<'_, Phase>
        ensures { IsCourseOf (λ phase. map unlined (ops_of phase)) self.now result }
    {
        Course {
            profile: self.profile,
            guard: self.guard,
            bounds: self.bounds.as_slice(),
            total: self.total,
            names_limit: self.names_limit,
            phases: self.phases.as_slice(),
        }
    }
}

impl Script {
    /// The course of the script, which is that of each plan that it is for.
    pub fn course(&self) -> Course<'_, CodedPhase>
        ensures { (plan : ThePlan) → IsScriptFor plan self.now → IsCourseOf coded_ops plan result }
    {
        Course {
            profile: self.profile,
            guard: self.guard,
            bounds: self.bounds.as_slice(),
            total: self.total,
            names_limit: self.names_limit,
            phases: self.phases.as_slice(),
        }
    }
}
