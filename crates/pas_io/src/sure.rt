//! A source and a sink that never fail.
ghost use Rattle.std.specs.Prelude.{◌≡◌, ◌≢◌, ◌≤◌, [], Some, None, length, take, IsOk, IfOk, OnErr};
ghost use Rattle.pas_io.specs.{Told.{Rose, MovesTold, Writes}, Unread.left, Reached.HasRun};
ghost use Rattle.pas_io.specs.declared.reach.Reach.TheVariants as Reach;

use crate::reach::Reach;
use crate::unread::Unread;
use crate::{Failed, Sink, Source};

/// Bytes in memory, whose reads never fail: its count of faults is always 0.
#[derive(Drop)]
pub struct SureSource {
    unread: Unread,
    reach: Reach,
}

impl SureSource {
    /// A source of these bytes.
    pub fn new(bytes: Vec<u8>) -> SureSource
        ensures rest { ⟦<SureSource as Source>⟧.rest result ≡ Some bytes.items }
        ensures reach { ⟦<SureSource as Source>⟧.reach result ≡ Reach.Within }
    {
        SureSource {
            unread: Unread::new(bytes),
            reach: Reach::Within,
        }
    }
}

impl Source for SureSource {
    ghost rest = { λ s. Some (left s.unread) };

    ghost faults = { λ s. 0 };

    ghost reach = { λ s. s.reach };

    fn read(&mut self, buffer: &mut [u8]) -> Result<usize, Failed>
        ensures sure { IsOk result }
        ensures within { IfOk result (λ n. n ≤ length buffer.old) }
        ensures moves { IfOk result (λ n. MovesTold (Some (left self.old.unread)) (Some (left self.new.unread)) buffer.old buffer.new n) }
        ensures ends { IfOk result (HasRun self.old.reach self.new.reach buffer.old) }
    {
        let has_place = !buffer.is_empty();
        let count = self.unread.fill(buffer);
        self.reach = self.reach.after(has_place && count == 0);
        Ok(count)
    }
}

/// Takes each piece whole, and never fails. It keeps and tells nothing.
#[derive(Drop)]
pub struct SureSink;

impl SureSink {
    pub fn new() -> SureSink {
        SureSink
    }
}

impl Sink for SureSink {
    ghost held = { λ s. None };

    ghost faults = { λ s. 0 };

    fn write(&mut self, bytes: &[u8]) -> Result<usize, Failed>
        ensures { result ≡ Ok (length bytes.now) }
    {
        Ok(bytes.len())
    }
}
