ghost use Rattle.std.specs.Prelude.{◌<◌};

use pas_io::memory::{MemorySink, MemorySource};
use pas_io::real::{RealSink, RealSource};
use pas_io::sure::{SureSink, SureSource};
use pas_io::whole::{Input, Stop, read_all, write_all};
use pas_io::{Failed, Sink, Source};
use std::alloc::{AllocError, Global};
use std::io;
use std::io::{ErrorKind, Read, Write};

const TEXT: &[u8] = b"a 1 1 0 24 16\n";

/// What `read_all` gives of these bytes, where the listed reads fail.
fn read_of(
    alloc: Global,
    bytes: &[u8],
    fails: &[u64],
    most: u32,
) -> Result<Result<Input, Stop>, AllocError> {
    let mut source = MemorySource::new(
        Vec::from_slice(alloc, bytes)?,
        Vec::from_slice(alloc, fails)?,
    );
    Ok(read_all(alloc, &mut source, most as usize))
}

/// Whether these bytes are read as a whole at this limit.
fn is_whole(alloc: Global, bytes: &[u8], most: u32) -> bool {
    match read_of(alloc, bytes, &[], most) {
        Ok(Ok(Input::Whole(read))) => read.as_slice() == bytes,
        _ => false,
    }
}

/// Whether these bytes are too many for this limit.
fn is_too_long(alloc: Global, bytes: &[u8], most: u32) -> bool {
    matches!(read_of(alloc, bytes, &[], most), Ok(Ok(Input::TooLong)))
}

/// Whether a long text is read up to the limit.
fn reads_long(alloc: Global) -> Result<bool, AllocError> {
    let long = vec![in alloc; 10u8; 200_000]?;
    let fits = is_whole(alloc, &long, 200_000) && is_whole(alloc, &long, 16_777_216);
    Ok(fits && is_too_long(alloc, &long, 199_999))
}

#[test]
fn reads_up_to_the_limit(rt: HostRuntime) {
    assert!(rt; is_whole(rt.alloc(), b"", 0) && is_too_long(rt.alloc(), b"1", 0));
    assert!(rt; is_whole(rt.alloc(), TEXT, 14) && is_too_long(rt.alloc(), TEXT, 13));
    assert!(rt; matches!(reads_long(rt.alloc()), Ok(true)));
}

/// Whether a fault comes up where this read fails.
fn is_fault(alloc: Global, call: u64) -> bool {
    matches!(read_of(alloc, TEXT, &[call], 100), Ok(Err(Stop::Fault)))
}

/// Whether a source without faults has more than so many bytes.
fn is_longer(alloc: Global, most: usize) -> Result<bool, AllocError>
    requires { most < 100 }
{
    let mut source = SureSource::new(Vec::from_slice(alloc, TEXT)?);
    Ok(matches!(read_all(alloc, &mut source, most), Ok(Input::TooLong)))
}

/// The bytes come in the first read, and their end in the second.
#[test]
fn failing_reads(rt: HostRuntime) {
    assert!(rt; is_fault(rt.alloc(), 1) && is_fault(rt.alloc(), 2));
    let later = read_of(rt.alloc(), TEXT, &[3], 100);
    assert!(rt; matches!(later, Ok(Ok(Input::Whole(_)))));
    assert!(rt; matches!(is_longer(rt.alloc(), 3), Ok(true)));
}

/// Whether of the text just the first so many bytes are written, with a fault where some are left.
fn writes(sink: &mut MemorySink, count: usize) -> bool {
    let is_written = write_all(sink, TEXT).is_ok();
    let held = sink.held();
    is_written == (count == TEXT.len()) && held.len() == count && TEXT.starts_with(held)
}

/// Whether of the text just the first so many bytes are written where the write after them fails, at a byte a write.
fn stops_after(alloc: Global, done: usize) -> Result<bool, AllocError>
    requires { done < 100 }
{
    let fails = vec![in alloc; done as u64 + 1]?;
    let mut sink = MemorySink::new(vec![in alloc; 0u8; 64]?, 1, fails);
    Ok(writes(&mut sink, done))
}

/// Whether just the first seven bytes are written to a sink that has no room for more.
fn stops_at_the_end(alloc: Global) -> Result<bool, AllocError> {
    let mut sink = MemorySink::new(vec![in alloc; 0u8; 7]?, 100, Vec::new(alloc));
    Ok(writes(&mut sink, 7))
}

/// Each write in turn fails, up to the one after the last.
#[test]
fn failing_writes(rt: HostRuntime) {
    for done in 0..TEXT.len() + 1 {
        assert!(rt; matches!(stops_after(rt.alloc(), done), Ok(true)));
    }
    assert!(rt; matches!(stops_at_the_end(rt.alloc()), Ok(true)));
    assert!(rt; write_all(&mut SureSink::new(), TEXT).is_ok());
}

/// Reads fail, and writes take nothing.
#[derive(Drop)]
struct Broken;

impl Read for Broken {
    fn read(&mut self, _buffer: &mut [u8]) -> io::Result<usize> {
        Err(io::Error::from(ErrorKind::Other))
    }
}

impl Write for Broken {
    fn write(&mut self, _bytes: &[u8]) -> io::Result<usize> {
        Ok(0)
    }

    fn flush(&mut self) -> io::Result<()> {
        Ok(())
    }
}

#[test]
fn real_reads_fail(rt: HostRuntime) {
    let mut source = RealSource::new(Broken);
    assert!(rt; source.read(&mut [0u8; 4]) == Err(Failed));
    assert!(rt; matches!(read_all(rt.alloc(), &mut source, 100), Err(Stop::Fault)));
}

#[test]
fn real_writes_fail(rt: HostRuntime) {
    let mut sink = RealSink::new(Broken);
    assert!(rt; sink.write(b"1") == Err(Failed) && sink.write(b"") == Ok(0));
    assert!(rt; write_all(&mut sink, TEXT) == Err(Failed));
}
