//! The limits of every region. Each is stated here and nowhere else.

/// Bytes of a page.
pub const PAGE_BYTES: u32 = 4096;

/// Bytes of a grain.
pub const GRAIN_BYTES: u32 = 16;

/// Grains of a page.
pub const PAGE_GRAINS: u32 = 256;

/// The classes of a region that has the fewer ones: the first so many.
pub const FEW_CLASSES: u8 = 16;

/// The most classes of a region: all that there are.
pub const MOST_CLASSES: u8 = 20;

/// The most pages of a region with `FEW_CLASSES`.
pub const FEW_PAGES: u32 = 4096;

/// The most pages of a region, which has `MOST_CLASSES` then.
pub const MOST_PAGES: u32 = 16_384;

/// The most threads.
pub const MOST_THREADS: u8 = 16;

/// The most heaps.
pub const MOST_HEAPS: u8 = 32;

/// The greatest age, in epochs, at which a page may be given back.
pub const MOST_AGE: u64 = 1_000_000;

/// The largest size, in bytes, that a bit-fit page serves.
pub const MOST_BITFIT: u32 = 2048;

/// The most bytes of an input.
pub const MOST_BYTES: usize = 16_777_216;

/// The most local allocators of a thread's cache.
pub const MOST_LOCALS: usize = 32;

/// The most names in a log of frees.
pub const MOST_LOGGED: usize = 64;
