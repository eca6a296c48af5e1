//! Two rows beside each other.
ghost use Rattle.std.specs.Prelude.{◌≡◌, ℕ, ◌*◌, ◌≤◌, MatchBool, length};
ghost use Rattle.pas_bits.specs.Rows.{HasMemberOutside, IsWithin, IsWithinBelow};

use crate::row_search::LANES;
use std::simd::prelude::*;

/// How many words come before the first group with a bit that is set in `a` and clear in `b`, or before the rest behind
/// the last group where none has one.
#[inline]
fn groups_within(a: &[u64], b: &[u64]) -> usize
    requires { length a.now ≡ length b.now }
    ensures within { result ≤ length a.now }
    ensures inside { IsWithinBelow a.now b.now (64 * result) }
{
    let mut start = 0;
    while a.len() - start >= LANES {
        let outside = u64x8::from_slice(&a[start..]) & !u64x8::from_slice(&b[start..]);
        let union = outside.reduce_or();
        if union != 0 {
            return start;
        }
        start += LANES;
    }
    start
}

/// Whether some bit is set in `a` and clear in `b`. The rows have the same length. Reads each word at most twice.
pub fn any_and_not(a: &[u64], b: &[u64]) -> bool
    requires { length a.now ≡ length b.now }
    ensures { MatchBool result (HasMemberOutside a.now b.now) (IsWithin a.now b.now) }
{
    for word in groups_within(a, b)..a.len() {
        let outside = a[word] & !b[word];
        if outside != 0 {
            return true;
        }
    }
    false
}
