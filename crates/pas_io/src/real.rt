//! A source over any reader and a sink over any writer. They tell the bytes that these tell.
//!
//! Proved for all of them: each error is a fault and is counted once, and no other call is; no number is above the length of the buffer or of the piece; where the
//! reader tells what remains, a read moves its next bytes, and where the writer tells what it contains, a write adds those that it answers for. Standard input and
//! output tell nothing: that they do what is said at the two types is trusted, and tested by `tests/pipes_and_files.py`.
ghost use Rattle.std.specs.Prelude.{◌≡◌, ◌≤◌};
ghost use Rattle.pas_io.specs.Told.{Rose};
ghost use Rattle.pas_io.specs.declared.reach.Reach.TheVariants as Reach;

use crate::reach::Reach;
use crate::{Failed, Sink, Source};
use std::io::{Read, Write};

/// What a reader gives. Each of its errors is a failure, and is counted.
///
/// Trusted of a reader that tells nothing: its read answers the next bytes, in the front of the buffer, and their number, be it a single byte; no byte is lost between
/// two reads; 0 for a buffer that isn't empty is the end of the input.
#[derive(Drop)]
pub struct RealSource<R> {
    reader: R,
    faults: u64,
    reach: Reach,
}

impl<R: Read> RealSource<R> {
    pub fn new(reader: R) -> RealSource<R>
        ensures reader { result.reader ≡ reader }
        ensures faults { result.faults ≡ 0 }
        ensures reach { result.reach ≡ Reach.Within }
    {
        RealSource {
            reader,
            faults: 0,
            reach: Reach::Within,
        }
    }
}

impl<R: Read> Source for RealSource<R> {
    ghost rest = { λ s. R.remaining s.reader };

    ghost faults = { λ s. s.faults };

    ghost reach = { λ s. s.reach };

    fn read(&mut self, buffer: &mut [u8]) -> Result<usize, Failed> {
        let has_place = !buffer.is_empty();
        match self.reader.read(buffer) {
            Ok(count) => {
                self.reach = self.reach.after(has_place && count == 0);
                Ok(count)
            }
            Err(_) => {
                self.reach = self.reach.after(false);
                self.faults = self.faults.saturating_add(1);
                Err(Failed)
            }
        }
    }
}

/// Where a writer puts bytes. Each of its errors is a failure, and so is a write that takes no byte of a piece that isn't empty. Each is counted.
///
/// Trusted of a writer that tells nothing: its write answers the number of bytes that it took from the front of the piece, these come after those of the writes before,
/// and it holds no byte back that it answered for.
#[derive(Drop)]
pub struct RealSink<W> {
    writer: W,
    faults: u64,
}

impl<W: Write> RealSink<W> {
    pub fn new(writer: W) -> RealSink<W>
        ensures writer { result.writer ≡ writer }
        ensures faults { result.faults ≡ 0 }
    {
        RealSink { writer, faults: 0 }
    }
}

impl<W: Write> Sink for RealSink<W> {
    ghost held = { λ s. W.contents s.writer };

    ghost faults = { λ s. s.faults };

    fn write(&mut self, bytes: &[u8]) -> Result<usize, Failed> {
        match self.writer.write(bytes) {
            Ok(count) if count > 0 || bytes.is_empty() => Ok(count),
            _ => {
                self.faults = self.faults.saturating_add(1);
                Err(Failed)
            }
        }
    }
}
