//! Measures what a step costs: at a plain and at a shared region, and beside the bare atomic operation.
//!
//! The word behind `steps` is the number of rounds. It prints a table of nanoseconds, which differs from run to run. Without that word it
//! measures nothing and prints nothing.

mod bare;
mod opened;
mod repeating;
mod sharing;
mod table;

use std::alloc::Global;
use std::env::Args;
use std::io;
use std::iter::Skip;
use std::thread::Threads;
use std::time::CpuClock;

/// The rounds that the first of these words asks for, 0 where there is none.
fn rounds(mut words: Skip<Args>) -> u64 {
    match words.next() {
        Some(word) => word.parse().unwrap_or(0),
        None => 0,
    }
}

/// Prints the table, by the words behind `steps`.
pub fn print<R: CpuClock + Print + Threads + Sync>(
    rt: &R,
    alloc: Global,
    words: Skip<Args>,
) -> io::Result<()> {
    let rounds = rounds(words);
    if rounds == 0 {
        return Ok(());
    }
    table::print(rt, alloc, rounds)
}
