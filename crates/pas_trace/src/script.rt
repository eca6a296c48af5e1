//! The plan of a trace in eight bytes an operation.
ghost use Rattle.std.specs.Prelude.{ℕ, ◌≡◌, ◌<◌, slice_index_or, vec_len};
ghost use Rattle.pas_trace.specs.Codes.{IsPlaced, no_code};

use crate::code::Code;
use crate::operations::Operations;
use crate::plan::{Bounds, Op};
use pas_profile::Profile;
use std::alloc::{AllocError, Global};

/// The operations of one phase in codes, in the order of the text, and those that no code holds whole. They have no lines.
#[derive(Drop)]
pub struct CodedPhase {
    codes: Vec<Code>,
    rare: Vec<Op>,
    ghost placed: { (k : ℕ) → IsPlaced (vec_len rare) (slice_index_or codes.items k no_code) },
}

/// The phases of a trace in codes, one at least. A phase may be empty.
#[derive(Drop)]
pub struct CodedPhases {
    pub(crate) phases: Vec<CodedPhase>,
}

/// What a `Plan` has, with the operations in codes: eight bytes for a request or a free by name, 40 for any other.
#[derive(Drop)]
pub struct Script {
    pub version: u8,
    pub profile: Profile,
    pub guard: u32,
    pub phases: CodedPhases,
    pub bounds: Bounds,
    pub total: u32,
    pub names_limit: usize,
}

impl CodedPhase {
    ghost use Rattle.std.specs.Prelude.{◌++◌, ◌∷◌, [], OnOk};
    ghost use Rattle.pas_trace.specs.{Codes.{said_by, unlined}, Scripts.coded_ops};

    /// No operation.
    pub(crate) fn new(alloc: Global) -> CodedPhase
        ensures { coded_ops result ≡ [] }
    {
        CodedPhase {
            codes: Vec::new(alloc),
            rare: Vec::new(alloc),
        }
    }

    /// Adds a code, for which room is made first.
    #[inline(always)]
    fn push(&mut self, code: Code) -> Result<(), AllocError>
        requires { IsPlaced (vec_len self.old.rare) code }
        ensures { OnOk result (coded_ops self.new ≡ coded_ops self.old ++ said_by self.old.rare.items code ∷ []) }
    {
        self.codes.reserve(1)?;
        self.codes.push_reserved(code);
        Ok(())
    }

    /// Adds an operation that no code holds. Memory is wanting for the 2^32nd of them.
    #[inline(never)]
    fn add_rare(&mut self, op: Op) -> Result<(), AllocError>
        ensures { OnOk result (coded_ops self.new ≡ coded_ops self.old ++ unlined op ∷ []) }
    {
        let Ok(place) = u32::try_from(self.rare.len()) else {
            return Err(AllocError);
        };
        self.rare.push(op)?;
        self.push(Code::at(place))
    }

    /// Adds an operation at the end.
    #[inline(always)]
    pub(crate) fn add(&mut self, op: Op) -> Result<(), AllocError>
        ensures { OnOk result (coded_ops self.new ≡ coded_ops self.old ++ unlined op ∷ []) }
    {
        match Code::of(op) {
            Some(code) => self.push(code),
            // Taken apart, so that an operation that has a code need never stand in memory.
            None => {
                let Op { line, actor, what } = op;
                self.add_rare(Op { line, actor, what })
            }
        }
    }
}

impl Operations for CodedPhase {
    ghost use Rattle.pas_trace.specs.Scripts.{coded_ops};

    ghost ops = { coded_ops };

    #[inline(always)]
    fn count(&self) -> usize {
        self.codes.len()
    }

    #[inline(always)]
    fn op(&self, place: usize) -> Op {
        self.codes[place].op(&self.rare)
    }
}

impl CodedPhases {
    ghost use Rattle.pas_trace.specs.Scripts.{coded_phases};

    /// The phases, in order.
    pub fn as_slice(&self) -> &[CodedPhase]
        ensures { result.now ≡ coded_phases self.now }
    {
        &self.phases
    }
}
