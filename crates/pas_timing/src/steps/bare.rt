//! The bare atomic operations, over a few words.
use crate::steps::repeating::Kind;
use std::sync::atomic::{AtomicU64, Ordering};

/// Makes so many operations, as a step of the kind makes one, and adds up their answers.
#[inline(always)]
pub fn repeat(words: &[AtomicU64; 4], kind: Kind, rounds: u64) -> u64 {
    let mut sum = 0u64;
    for round in 0..rounds {
        let bit = 1 << (round % 64);
        let word = match kind {
            Kind::Look => &words[(round % 4) as usize],
            Kind::Hint | Kind::Unhint | Kind::Tick => &words[0],
        };
        let answer = match kind {
            Kind::Look => word.load(Ordering::SeqCst),
            Kind::Hint => word.fetch_or(bit, Ordering::SeqCst),
            Kind::Unhint => word.fetch_and(!bit, Ordering::SeqCst),
            Kind::Tick => word.fetch_max(round, Ordering::SeqCst),
        };
        sum = sum.wrapping_add(answer);
    }
    sum
}
