//! The threads that are awake in a phase.
ghost use Rattle.std.specs.Prelude.{◌≡◌, ℕ};
ghost use Rattle.pas_bits.specs.Masks.{is_set};
ghost use Rattle.pas_trace.specs.Acts.{is_active};

use pas_bits::Mask4;
use pas_trace::{Op, Operations};

/// The threads that have an operation among these, by their numbers.
pub fn active(ops: &[Op]) -> Mask4
    ensures { (k : ℕ) → is_set result k ≡ is_active ops.now k }
{
    let mut threads = Mask4([0; 4]);
    for op in ops {
        if !threads.get(op.actor) {
            threads.set(op.actor);
        }
    }
    threads
}

/// What stands for the actor before the first one.
const NOBODY: u16 = 256;

/// The threads that have an operation in the phase, by their numbers. An actor mostly has several operations in a row.
pub fn active_in<P: Operations>(phase: &P) -> Mask4
    ensures { (k : ℕ) → is_set result k ≡ is_active (P.ops phase.now) k }
{
    let mut threads = Mask4([0; 4]);
    let mut last = NOBODY;
    for place in 0..phase.count() {
        let op = phase.op(place);
        if op.actor as u16 != last {
            threads.set(op.actor);
            last = op.actor as u16;
        }
    }
    threads
}
