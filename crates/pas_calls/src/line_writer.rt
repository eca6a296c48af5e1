//! The lines of records that are written as they come.
ghost use Rattle.std.specs.Prelude.{◌≡◌, [], false, All};
ghost use Rattle.pas_records.specs.{Lines.{CanShow, lines_of}, Rooms.{records_in, room_of}};
ghost use Rattle.pas_calls.specs.Wrote.{Wrote};

use pas_io::{Failed, Sink};
use pas_records::{Lines, Records, write_lines_by};
use pas_replay::Takes;

/// As many records wait at most between two operations; where there are more, their lines are written.
pub(crate) const WAITING: u32 = 1023;

/// Writes the lines of records as they come, 1,024 or more at a time. After the first write that failed it asks the sink no more.
#[derive(Drop)]
pub(crate) struct LineWriter<'a, K> {
    sink: &'a mut K,
    failed: bool,
    /// Kept from one write to the next, since to clear new ones takes longer than a short round of lines.
    lines: Lines,
}

impl<'a, K: Sink> LineWriter<'a, K> {
    pub(crate) fn new(sink: &'a mut K) -> LineWriter<'a, K>
        ensures same_reference { result.sink.ghost_name ≡ sink.entry.ghost_name }
        ensures sink { result.sink.now ≡ sink.old }
        ensures failed { result.failed ≡ false }
    {
        LineWriter {
            sink,
            failed: false,
            lines: Lines::new(),
        }
    }

    /// Writes the lines of all records that wait.
    #[inline(never)]
    pub(crate) fn write(&mut self, waiting: &mut Records)
        requires { All CanShow (records_in waiting.old) }
        ensures same_reference { self.new.sink.ghost_name ≡ self.old.sink.ghost_name }
        ensures wrote { Wrote self.old.failed self.new.failed (K.held self.old.sink.now) (K.held self.new.sink.now) (K.faults self.old.sink.now) (K.faults self.new.sink.now) (lines_of (records_in waiting.old)) }
        ensures empty { records_in waiting.new ≡ [] }
        ensures size { room_of waiting.new ≡ room_of waiting.old }
    {
        if !self.failed {
            match write_lines_by(&mut self.lines, waiting.as_slice(), self.sink) {
                Ok(()) => {}
                Err(Failed) => self.failed = true,
            }
        }
        waiting.clear();
    }

    /// Whether a write failed.
    pub(crate) fn has_failed(&self) -> bool
        ensures { result ≡ self.now.failed }
    {
        self.failed
    }
}

impl<K: Sink> Takes for LineWriter<'_, K> {
    ghost use Rattle.std.{specs.Prelude.{◌≡◌, Some}, proofs.Common.{refl, ◌∙◌}};
    ghost use Rattle.pas_records.specs.Lines.{lines_of};
    ghost use Rattle.pas_calls.specs.Wrote.{Wrote, wrote_none, wrote_lines};

    ghost took = { λ a b first. (b.sink.ghost_name ≡ a.sink.ghost_name)
        × Wrote a.failed b.failed (K.held a.sink.now) (K.held b.sink.now) (K.faults a.sink.now) (K.faults b.sink.now) (lines_of first) };

    ghost waits = { Some 1023 };

    ghost nothing = { λ t. (refl, wrote_none t.failed (K.held t.sink.now) (K.faults t.sink.now)) };

    ghost both = { λ a b c xs ys one two. (
      two.0 ∙ one.0,
      wrote_lines a.failed b.failed c.failed (K.held a.sink.now) (K.held b.sink.now) (K.held c.sink.now)
          (K.faults a.sink.now) (K.faults b.sink.now) (K.faults c.sink.now) xs ys one.1 two.1,
    ) };

    #[inline(always)]
    fn take(&mut self, out: &mut Records) {
        if out.as_slice().len() > WAITING as usize {
            self.write(out);
        }
    }
}
