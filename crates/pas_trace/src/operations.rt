//! Where the operations of a phase stand.
ghost use Rattle.std.specs.Prelude.{◌≡◌, ◌<◌, List, length, slice_index_or};
ghost use Rattle.pas_trace.specs.{Codes.unlined, declared.plan.Op.Op};

use crate::plan::{Op, Phase};

/// The operations of a phase, in the order of the text, in whatever form. No replay asks for their lines, which some forms don't have.
pub trait Operations {
    /// What they are but for their lines.
    ghost ops: { Self → List Op };

    /// How many they are.
    fn count(&self) -> usize
        ensures { result ≡ length (ops self.now) };

    /// The operation at this place, from 0, with any line. Constant time.
    fn op(&self, place: usize) -> Op
        requires { place < length (ops self.now) }
        ensures { (d : Op) → unlined result ≡ slice_index_or (ops self.now) place d };
}

impl Operations for Phase {
    ghost use Rattle.std.specs.Prelude.{map};
    ghost use Rattle.pas_trace.specs.{Codes.unlined, Plans.ops_of};

    ghost ops = { λ phase. map unlined (ops_of phase) };

    #[inline(always)]
    fn count(&self) -> usize {
        self.ops.len()
    }

    #[inline(always)]
    fn op(&self, place: usize) -> Op {
        self.ops[place]
    }
}
