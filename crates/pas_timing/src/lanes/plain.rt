//! The plain loops, word by word, which the kernels are timed beside.
ghost use Rattle.std.specs.Prelude.{◌≡◌, ℕ, ◌*◌, ◌^◌, ◌<◌, length};

/// The lowest set bit of the row.
pub fn first_set(words: &[u64]) -> Option<usize>
    requires { 64 * length words.now < 2 ^ 64 }
{
    for (word, bits) in words.iter().enumerate() {
        if *bits != 0 {
            return Some(64 * word + bits.trailing_zeros() as usize);
        }
    }
    None
}

/// How many bits of the row are set.
pub fn count_ones(words: &[u64]) -> u64 {
    let mut ones = 0u64;
    for bits in words {
        ones = ones.wrapping_add(bits.count_ones() as u64);
    }
    ones
}

/// Whether some bit is set in `a` and clear in `b`.
pub fn any_and_not(a: &[u64], b: &[u64]) -> bool {
    a.iter().zip(b).any(|(a, b)| *a & !*b != 0)
}

/// Whether no bit of the row is set.
pub fn all_zero(words: &[u64]) -> bool {
    words.iter().all(|bits| *bits == 0)
}
