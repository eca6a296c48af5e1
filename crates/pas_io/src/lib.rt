//! Where bytes come from, and where they go.
//!
//! Sources and sinks count their faults and may tell their bytes to contracts; a source also says how far it was read. Only `RealSource` and `RealSink` reach the
//! system: they tell the bytes that the reader and the writer below them tell.
#![tactic(auto)]

pub mod memory;
pub mod pieces;
pub mod reach;
pub mod real;
mod schedule;
pub mod sure;
mod unread;
pub mod whole;

ghost use Rattle.std.specs.Prelude.{◌≡◌, ◌≢◌, ◌<◌, ◌≤◌, ◌+◌, ℕ, List, [], Option, length, take, IfOk, OnErr};
ghost use Rattle.pas_io.specs.{Told.{Rose, KeepsTold, MovesTold, Writes}, Reached.{HasGone, HasRun}, declared.reach.Reach.Reach};

pub use memory::{MemorySink, MemorySource};
pub use reach::Reach;
pub use real::{RealSink, RealSource};
pub use sure::{SureSink, SureSource};
pub use whole::write_all;

/// A read or a write failed.
#[derive(Clone, Copy, Debug, PartialEq, Eq, Drop)]
pub struct Failed;

/// What bytes come from.
pub trait Source {
    /// The bytes that are left, where the source tells them.
    ghost rest: { Self → Option (List ℕ) };

    /// How often a read failed. The count ends at 2^64 - 1.
    ghost faults: { Self → ℕ };

    /// How far it was read.
    ghost reach: { Self → Reach };

    /// Moves the next bytes into the front of the buffer, and answers how many. None is the end, or no place in the buffer.
    /// A read that fails loses no byte, and is counted as one fault; no other read is counted. Whoever has met the end is to read no more.
    fn read(&mut self, buffer: &mut [u8]) -> Result<usize, Failed>
        ensures within { IfOk result (λ n. n ≤ length buffer.old) }
        ensures moves { IfOk result (λ n. MovesTold (rest self.old) (rest self.new) buffer.old buffer.new n) }
        ensures ends { IfOk result (HasRun (reach self.old) (reach self.new) buffer.old) }
        ensures keeps { OnErr result (KeepsTold (rest self.old) (rest self.new)) }
        ensures goes { OnErr result (HasGone (reach self.old) (reach self.new)) }
        ensures sound { IfOk result (λ n. faults self.new ≡ faults self.old) }
        ensures failed { OnErr result (Rose (faults self.old) (faults self.new)) }
        ensures count { faults self.old ≤ faults self.new }
        ensures once { faults self.new ≤ faults self.old + 1 };
}

/// Where bytes go.
pub trait Sink {
    /// The bytes that were taken, where the sink tells them.
    ghost held: { Self → Option (List ℕ) };

    /// How often a write failed. The count ends at 2^64 - 1.
    ghost faults: { Self → ℕ };

    /// Takes bytes from the front of the piece, and answers how many: at least one of a piece that isn't empty.
    /// A write that fails takes none, and is counted as one fault; no other write is counted.
    fn write(&mut self, bytes: &[u8]) -> Result<usize, Failed>
        ensures within { IfOk result (λ n. n ≤ length bytes.now) }
        ensures some { IfOk result (λ n. bytes.now ≢ [] → 1 ≤ n) }
        ensures writes { IfOk result (λ n. Writes (held self.old) (held self.new) (take n bytes.now)) }
        ensures keeps { OnErr result (KeepsTold (held self.old) (held self.new)) }
        ensures sound { IfOk result (λ n. faults self.new ≡ faults self.old) }
        ensures failed { OnErr result (Rose (faults self.old) (faults self.new)) }
        ensures count { faults self.old ≤ faults self.new }
        ensures once { faults self.new ≤ faults self.old + 1 };
}
