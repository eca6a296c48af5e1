//! What plans and scripts have beside their phases.
ghost use Rattle.std.specs.Prelude.{◌≡◌};
ghost use Rattle.pas_trace.specs.Told.{outline_of, outline_in};

use crate::plan::{Bounds, Phases, Plan};
use crate::script::{CodedPhases, Script};
use pas_profile::Profile;

/// All of a plan or a script but for its phases.
#[derive(Drop)]
pub struct Outline {
    pub version: u8,
    pub profile: Profile,
    pub guard: u32,
    pub bounds: Bounds,
    pub total: u32,
    pub names_limit: usize,
}

impl Outline {
    /// The plan with these phases.
    pub(crate) fn plan(self, phases: Phases) -> Plan
        ensures { (outline_of result ≡ self) × (result.phases ≡ phases) }
    {
        let Outline {
            version,
            profile,
            guard,
            bounds,
            total,
            names_limit,
        } = self;
        Plan {
            version,
            profile,
            guard,
            phases,
            bounds,
            total,
            names_limit,
        }
    }

    /// The script with these phases.
    pub(crate) fn script(self, phases: CodedPhases) -> Script
        ensures { (outline_in result ≡ self) × (result.phases ≡ phases) }
    {
        let Outline {
            version,
            profile,
            guard,
            bounds,
            total,
            names_limit,
        } = self;
        Script {
            version,
            profile,
            guard,
            phases,
            bounds,
            total,
            names_limit,
        }
    }
}
