//! How many bits of a row are set.
ghost use Rattle.std.specs.Prelude.{◌≡◌, ℕ, ◌*◌, ◌^◌, ◌<◌, ◌≤◌, length};
ghost use Rattle.pas_bits.specs.Rows.{set_count};

use crate::row_search::LANES;
use std::simd::prelude::*;

/// How many bits are set. The row has fewer than 2^57 words, so the number fits. Reads each word once.
pub fn count_ones(words: &[u64]) -> u64
    requires { length words.now < 2 ^ 57 }
    ensures { result ≡ set_count words.now }
{
    let mut start = 0;
    let mut lanes = u64x8::splat(0);
    while words.len() - start >= LANES {
        lanes = lanes.strict_add(u64x8::from_slice(&words[start..]).count_ones());
        start += LANES;
    }
    let mut ones = lanes.strict_reduce_sum();
    for word in start..words.len() {
        ones += words[word].count_ones() as u64;
    }
    ones
}
