//! Searches a directory for its offered page many times, by rows or word by word.
//!
//! The region has 4,096 pages, of which the last alone has a deed and is offered. Each line of standard input is a job,
//! as `rows 1000`: `rows` or `words`, and how often. The line is printed with the sum of the pages found, which is the
//! same for both ways; a line that is no job is printed with `no job`.

mod opened;
mod searching;
mod words;

use crate::scan::opened::last_offered;
use crate::scan::searching::search_often;
use std::alloc::Global;

/// The sum of the pages that a job's searches find. None where the line is no job, or memory is wanting.
pub fn pages(alloc: Global, line: &str) -> Option<u64> {
    let mut parts = line.split(' ');
    let by_rows = match parts.next()? {
        "rows" => true,
        "words" => false,
        _ => return None,
    };
    let times = parts.next()?.parse::<u32>().ok()?;
    let mut desk = last_offered(alloc).ok()?;
    Some(search_often(&mut desk, by_rows, times))
}
