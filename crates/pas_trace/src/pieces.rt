//! Pieces of bytes between separators.
ghost use Rattle.std.specs.Prelude.{◌≡◌, ◌≢◌, ◌<◌, ◌≤◌, ℕ, length, slice_index};

/// How many bytes stand before the first separator; all of them where there is none. One pass.
#[inline]
pub(crate) fn piece_length(bytes: &[u8], separator: u8) -> usize
    ensures within { result ≤ length bytes.now }
    ensures before { (k : ℕ) → k < result → slice_index bytes.now k ≢ separator }
    ensures ended { result < length bytes.now → slice_index bytes.now result ≡ separator }
{
    for (index, byte) in bytes.iter().enumerate() {
        if *byte == separator {
            return index;
        }
    }
    bytes.len()
}
