ghost use Rattle.std.specs.Prelude.{All, IfOk};
ghost use Rattle.pas_records.specs.Lines.{CanShow};

use pas_io::memory::MemorySink;
use pas_records::{Record, Sheets, write_lines, write_lines_on};
use std::alloc::{AllocError, Global};
use std::thread::Threads;

/// The marks of so many phases.
fn marks(alloc: Global, count: u32) -> Result<Vec<Record>, AllocError>
    ensures { IfOk result (λ marks. All CanShow marks.items) }
{
    let mut marks = Vec::new(alloc);
    for phase in 0..count {
        marks.push(Record::Phase(phase))?;
    }
    Ok(marks)
}

/// A sink with room for a million bytes, whose listed writes fail.
fn sink(alloc: Global, fails: &[u64]) -> Result<MemorySink, AllocError> {
    let buffer = vec![in alloc; 0u8; 1_000_000]?;
    Ok(MemorySink::new(buffer, u32::MAX, Vec::from_slice(alloc, fails)?))
}

/// The lines of so many marks, written one by one. None where memory was wanting, or a write failed.
fn lines(alloc: Global, count: u32) -> Option<MemorySink> {
    let marks = marks(alloc, count).ok()?;
    let mut all = sink(alloc, &[]).ok()?;
    write_lines(&marks, &mut all).ok()?;
    Some(all)
}

/// Whether so many marks are written on the sheets, as these lines. None where memory was wanting.
fn is_written<R: Threads + Sync>(
    rt: &R,
    alloc: Global,
    sheets: &mut Sheets,
    count: u32,
    lines: &[u8],
) -> Option<bool> {
    let marks = marks(alloc, count).ok()?;
    let mut made = sink(alloc, &[]).ok()?;
    let written = write_lines_on(rt, sheets, &marks, &mut made);
    Some(written.is_ok() && made.held() == lines)
}

/// Whether marks are written on sheets as one by one, and once more on the same sheets.
fn is_written_twice<R: Threads + Sync>(rt: &R, alloc: Global) -> Option<bool> {
    let all = lines(alloc, 40_000)?;
    let mut sheets = Sheets::try_new(alloc).ok()?;
    let first = is_written(rt, alloc, &mut sheets, 40_000, all.held())?;
    let second = is_written(rt, alloc, &mut sheets, 40_000, all.held())?;
    Some(first && second)
}

#[test]
fn lines_of_more_than_a_round(rt: HostRuntime) {
    assert!(rt; is_written_twice(&rt, rt.alloc()) == Some(true));
}

/// How many bytes are written of marks where this write fails. None where memory was wanting, no fault comes up, or
/// others than the first of the lines are written.
fn cut_at<R: Threads + Sync>(
    rt: &R,
    alloc: Global,
    sheets: &mut Sheets,
    call: u64,
    lines: &[u8],
) -> Option<usize> {
    let marks = marks(alloc, 40_000).ok()?;
    let mut made = sink(alloc, &[call]).ok()?;
    let written = write_lines_on(rt, sheets, &marks, &mut made);
    if written.is_ok() || !lines.starts_with(made.held()) {
        return None;
    }
    Some(made.held().len())
}

/// Whether a fault in the first round and one in the second cut the lines off there.
fn are_cut<R: Threads + Sync>(rt: &R, alloc: Global) -> Option<bool> {
    let all = lines(alloc, 40_000)?;
    let mut sheets = Sheets::try_new(alloc).ok()?;
    let between = cut_at(rt, alloc, &mut sheets, 12, all.held())?;
    let last = cut_at(rt, alloc, &mut sheets, 18, all.held())?;
    Some(between > 200_000 && last > between && last - between > 100_000)
}

#[test]
fn faults_cut_the_lines_off(rt: HostRuntime) {
    assert!(rt; are_cut(&rt, rt.alloc()) == Some(true));
}

/// Whether sheets of many lines are written with few, and then with none.
fn is_used_again<R: Threads + Sync>(rt: &R, alloc: Global) -> Option<bool> {
    let all = lines(alloc, 2000)?;
    let mut sheets = Sheets::try_new(alloc).ok()?;
    let many = is_written(rt, alloc, &mut sheets, 2000, all.held())?;
    let few = is_written(rt, alloc, &mut sheets, 2, b"phase 0\nphase 1\n")?;
    let none = is_written(rt, alloc, &mut sheets, 0, b"")?;
    Some(many && few && none)
}

#[test]
fn sheets_are_used_again(rt: HostRuntime) {
    assert!(rt; is_used_again(&rt, rt.alloc()) == Some(true));
}
