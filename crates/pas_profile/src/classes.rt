//! The classes of small blocks, and the grains that their slots cover.
ghost use Rattle.std.specs.{Prelude.{◌≡◌, ◌==◌, ◌<◌, ℕ, ◌/◌, ◌%◌, length, slice_index, Bool}, Int.bit_at};
ghost use Rattle.pas_profile.specs.Classes.{IsClass, class_size as size_of_class, usable_grains, is_usable};

use crate::limits::{GRAIN_BYTES, PAGE_BYTES, PAGE_GRAINS};

/// The size of each class, in bytes. A region has the first sixteen, or all.
pub const CLASS_SIZES: [u32; 20] = [
    16, 32, 48, 64, 80, 96, 112, 128, 160, 192, 224, 256, 320, 384, 448, 512, 640, 768, 896, 1024,
];

/// Bytes of a block of the class.
pub fn class_size(class: u8) -> u32
    requires { IsClass class }
    ensures { result ≡ size_of_class class }
{
    CLASS_SIZES[class as usize]
}

/// The grains that the slots of the class cover, as a mask of 256 bits: bit g is bit `g % 64` of word `g / 64`.
pub fn slot_mask(class: u8) -> [u64; 4]
    requires { IsClass class }
    ensures { (g : ℕ) → g < 256 → (bit_at (slice_index result (g / 64)) (g % 64) == 1) ≡ is_usable class g }
{
    let size = class_size(class);
    let usable = PAGE_BYTES / size * (size / GRAIN_BYTES);
    let last = u64::MAX >> (PAGE_GRAINS - usable);
    [u64::MAX, u64::MAX, u64::MAX, last]
}
