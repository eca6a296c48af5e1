//! Calls a kernel, or the plain loop in its place, many times over one row.
//!
//! Each line of standard input is a job, as `first_set lanes 64 1000`: the call, `lanes` or `plain`, the words of the
//! row (1 to 4,096), and how often. The line is printed with the sum of the answers, which is the same for both ways;
//! a line that is no job is printed with `no job`.

mod plain;
mod rounds;

use crate::lanes::rounds::{Call, Rounds};
use std::alloc::Global;

/// Most words of a row.
pub(crate) const MOST_WORDS: usize = 4096;

/// The sum of a job's answers. None where the line is no job, or memory is wanting.
pub fn answers(alloc: Global, line: &str) -> Option<u64> {
    let mut parts = line.split(' ');
    let call = match parts.next()? {
        "first_set" => Call::FirstSet,
        "count_ones" => Call::CountOnes,
        "any_and_not" => Call::AnyAndNot,
        "all_zero" => Call::AllZero,
        _ => return None,
    };
    let in_lanes = match parts.next()? {
        "lanes" => true,
        "plain" => false,
        _ => return None,
    };
    let words = parts.next()?.parse::<usize>().ok()?;
    let times = parts.next()?.parse::<u32>().ok()?;
    if words == 0 || words > MOST_WORDS {
        return None;
    }
    let rounds = Rounds {
        call,
        in_lanes,
        times,
    };
    let mut row = Vec::from_elem(alloc, 0u64, words).ok()?;
    let mut other = Vec::from_elem(alloc, 0u64, words).ok()?;
    Some(rounds.run(&mut row, &mut other))
}
