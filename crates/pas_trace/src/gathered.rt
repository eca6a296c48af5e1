//! The operations of a trace, phase by phase, as they are read.
ghost use Rattle.std.specs.Prelude.{◌≡◌, ◌++◌, ◌∷◌, [], Some, OnOk, IfOk, map, true, false};
ghost use Rattle.pas_trace.specs.{Gathering.{whole_phases, scripted_phases, Gathers, IsFirst, is_scripting}, Codes.unlined, Plans.{ops_of, add_last}};
ghost use Rattle.pas_trace.specs.Scripts.{coded_ops};

use crate::plan::{Op, Phase, Phases};
use crate::script::{CodedPhase, CodedPhases};
use std::alloc::{AllocError, Global};
use std::mem;

/// The phases of a plan that are over, and the operations of the present one.
#[derive(Drop)]
pub struct Whole {
    done: Vec<Phase>,
    present: Vec<Op>,
}

/// The phases of a script that are over, and the present one.
#[derive(Drop)]
pub struct Coded {
    done: Vec<CodedPhase>,
    present: CodedPhase,
}

/// The phases so far, for a plan or for a script.
#[derive(Drop)]
pub enum Gathered {
    Whole(Whole),
    Coded(Coded),
}

impl Whole {
    /// Adds an operation to the present phase. Room is made first, so that no operation comes back where memory is wanting.
    #[inline(always)]
    fn add(&mut self, op: Op) -> Result<(), AllocError>
        ensures { OnOk result (whole_phases self.new ≡ add_last (Some op) (whole_phases self.old)) }
    {
        self.present.reserve(1)?;
        self.present.push_reserved(op);
        Ok(())
    }

    /// Begins the next phase.
    fn next_phase(&mut self, alloc: Global) -> Result<(), AllocError>
        ensures { OnOk result (whole_phases self.new ≡ whole_phases self.old ++ [] ∷ []) }
    {
        let ops = mem::replace(&mut self.present, Vec::new(alloc));
        self.done.push(Phase { ops })?;
        Ok(())
    }

    /// All phases.
    pub(crate) fn finish(self) -> Result<Phases, AllocError>
        ensures { IfOk result (λ phases. map ops_of phases.phases.items ≡ whole_phases self) }
    {
        let Whole { mut done, present } = self;
        done.push(Phase { ops: present })?;
        Ok(Phases { phases: done })
    }
}

impl Coded {
    /// Adds an operation to the present phase. In line, an operation is coded where it was read, and never stands whole.
    #[inline(always)]
    fn add(&mut self, op: Op) -> Result<(), AllocError>
        ensures { OnOk result (scripted_phases self.new ≡ add_last (Some (unlined op)) (scripted_phases self.old)) }
    {
        self.present.add(op)
    }

    /// Begins the next phase.
    fn next_phase(&mut self, alloc: Global) -> Result<(), AllocError>
        ensures { OnOk result (scripted_phases self.new ≡ scripted_phases self.old ++ [] ∷ []) }
    {
        let phase = mem::replace(&mut self.present, CodedPhase::new(alloc));
        self.done.push(phase)?;
        Ok(())
    }

    /// All phases.
    pub(crate) fn finish(self) -> Result<CodedPhases, AllocError>
        ensures { IfOk result (λ phases. map coded_ops phases.phases.items ≡ scripted_phases self) }
    {
        let Coded { mut done, present } = self;
        done.push(present)?;
        Ok(CodedPhases { phases: done })
    }
}

impl Gathered {
    /// One phase of a plan, without an operation.
    pub(crate) fn for_plan(alloc: Global) -> Gathered
        ensures { IsFirst false result }
    {
        Gathered::Whole(Whole {
            done: Vec::new(alloc),
            present: Vec::new(alloc),
        })
    }

    /// One phase of a script, without an operation.
    pub(crate) fn for_script(alloc: Global) -> Gathered
        ensures { IsFirst true result }
    {
        Gathered::Coded(Coded {
            done: Vec::new(alloc),
            present: CodedPhase::new(alloc),
        })
    }

    /// Adds an operation to the present phase.
    #[inline(always)]
    pub(crate) fn add(&mut self, op: Op) -> Result<(), AllocError>
        ensures { OnOk result (Gathers (add_last (Some op)) self.old self.new) }
    {
        match self {
            Gathered::Whole(whole) => whole.add(op),
            Gathered::Coded(coded) => coded.add(op),
        }
    }

    /// Begins the next phase.
    pub(crate) fn next_phase(&mut self, alloc: Global) -> Result<(), AllocError>
        ensures { OnOk result (Gathers (λ phases. phases ++ [] ∷ []) self.old self.new) }
    {
        match self {
            Gathered::Whole(whole) => whole.next_phase(alloc),
            Gathered::Coded(coded) => coded.next_phase(alloc),
        }
    }
}
