//! The lowest set bit of a row, and whether there is one.
ghost use Rattle.std.specs.Prelude.{◌≡◌, ℕ, ◌*◌, ◌^◌, ◌<◌, ◌≤◌, MatchBool, MatchOption, length};
ghost use Rattle.pas_bits.specs.Rows.{HasMember, IsClearBelow, IsEmpty, IsLowestSet};

use std::simd::prelude::*;

/// Words in a group.
pub const LANES: usize = 8;

/// How many words come before the first group that has a set bit, or before the rest behind the last group where none
/// has one.
#[inline]
fn clear_groups(words: &[u64]) -> usize
    ensures within { result ≤ length words.now }
    ensures clear { IsClearBelow words.now (64 * result) }
{
    let mut start = 0;
    while words.len() - start >= LANES {
        let union = u64x8::from_slice(&words[start..]).reduce_or();
        if union != 0 {
            return start;
        }
        start += LANES;
    }
    start
}

/// The lowest number whose bit is set: number n stands in bit `n % 64` of word `n / 64`. None exactly where there is none.
/// 64 times the length fits in 64 bits. Reads each word at most twice.
pub fn first_set(words: &[u64]) -> Option<usize>
    requires { 64 * length words.now < 2 ^ 64 }
    ensures { MatchOption result (IsEmpty words.now) (IsLowestSet words.now) }
{
    let start = clear_groups(words);
    for word in start..words.len() {
        let bits = words[word];
        if bits != 0 {
            return Some(64 * word + bits.trailing_zeros() as usize);
        }
    }
    None
}

/// Whether no bit is set. Reads each word at most twice.
pub fn all_zero(words: &[u64]) -> bool
    ensures { MatchBool result (IsEmpty words.now) (HasMember words.now) }
{
    for word in clear_groups(words)..words.len() {
        let bits = words[word];
        if bits != 0 {
            return false;
        }
    }
    true
}
