//! Which requests are guarded.
ghost use Rattle.std.specs.Prelude.{◌≡◌, ◌<◌, ◌≤◌, ◌^◌, ◌&&◌, ℕ, length, slice_index};
ghost use Rattle.pas_trace.specs.{Reasons.{cost_of_size, is_sampled}, Wishes.is_large, Told.{CanSample, IsSampled, samples_next}};

use crate::requests::cost_of_allocation;
use pas_profile::limits::MOST_BITFIT;

/// The number of the `guard` line, 0 where there is none; how many requests for whole pages each thread has made; and how many records its keeper
/// may make for those of them that are guarded.
#[derive(Drop)]
pub struct Samples {
    pub guard: u32,
    pub larges: [u32; 17],
    pub kept: [u32; 17],
}

/// Whether the request of this number, from 1, among those of its thread for whole pages is guarded, where every so many are, or none where that is 0.
#[inline(always)]
fn is_sampled(guard: u32, number: u32) -> bool
    ensures { result ≡ is_sampled guard number }
{
    guard != 0 && number % guard == 0
}

impl Samples {
    /// Before the first line nothing was asked for.
    pub fn new() -> Samples
        ensures guard { result.guard ≡ 0 }
        ensures width { (length result.larges ≡ 17) × (length result.kept ≡ 17) }
        ensures none { (k : ℕ) → (slice_index result.larges k ≡ 0) × (slice_index result.kept k ≡ 0) }
    {
        Samples {
            guard: 0,
            larges: [0; 17],
            kept: [0; 17],
        }
    }

    /// Counts a request of the thread for so many bytes, where it is for whole pages. Whether it is guarded.
    #[inline(always)]
    pub fn sample(&mut self, thread: u8, size: u32) -> bool
        requires can { CanSample self.old thread }
        requires size { size ≤ 2 ^ 26 }
        ensures guarded { result ≡ (is_large size && samples_next self.old thread) }
        ensures sampled { IsSampled self.old self.new thread (is_large size) (cost_of_size size) }
    {
        if size <= MOST_BITFIT {
            return false;
        }
        let place = thread as usize;
        self.larges[place] += 1;
        if !is_sampled(self.guard, self.larges[place]) {
            return false;
        }
        self.kept[place] += cost_of_allocation(size);
        true
    }
}
