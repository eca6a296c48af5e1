//! The profile of a region.

use crate::directory::Route;
use crate::limits::{
    FEW_CLASSES, FEW_PAGES, GRAIN_BYTES, MOST_AGE, MOST_CLASSES, MOST_HEAPS, MOST_PAGES,
    MOST_THREADS, PAGE_BYTES,
};
use crate::routing;

/// The numbers that a region is made from. Bit h of `shared` marks heap h as served by shared pages. Of the classes the region has the
/// first so many: sixteen, or all twenty.
#[derive(Clone, Copy, PartialEq, Eq, Drop)]
pub struct Profile {
    pub pages: u32,
    pub threads: u8,
    pub age: u64,
    pub heaps: u8,
    pub shared: u32,
    pub classes: u8,
}

impl Profile {
    ghost use Rattle.std.specs.Prelude.{◌↔◌, ◌≡◌, ◌*◌, ◌≤◌, IsTrue};
    ghost use Rattle.pas_profile.specs.{Classes.IsAlignment, Profiles.{IsValid, IsAdmitted, AreClassesFor}, Requests.{route_in, room_in}};

    /// Whether the region has twenty classes, or sixteen and at most 4,096 pages.
    fn has_classes(&self) -> bool
        ensures { IsTrue result ↔ AreClassesFor self.now.pages self.now.classes }
    {
        self.classes == MOST_CLASSES || self.classes == FEW_CLASSES && self.pages <= FEW_PAGES
    }

    /// Whether the numbers are within the limits: 1 to 4,096 pages with sixteen classes, or 1 to 16,384 pages with twenty, 1 to 16 threads, an
    /// age from 1 to 1,000,000, and 1 to 32 heaps.
    pub fn is_valid(&self) -> bool
        ensures { IsTrue result ↔ IsValid self.now }
    {
        (1..=MOST_PAGES).contains(&self.pages)
            && self.has_classes()
            && (1..=MOST_THREADS).contains(&self.threads)
            && (1..=MOST_AGE).contains(&self.age)
            && (1..=MOST_HEAPS).contains(&self.heaps)
    }

    /// Whether a request is one that the region may serve: a size of at most all its bytes, an alignment that is a power
    /// of two from 16 to 4,096, and a heap that exists.
    pub fn admits(&self, size: u32, align: u32, heap: u8) -> bool
        ensures { IsTrue result ↔ IsAdmitted self.now size align heap }
    {
        // A divisor of a page's 4,096 bytes is a power of two.
        size as u64 <= self.pages as u64 * PAGE_BYTES as u64
            && align >= GRAIN_BYTES
            && PAGE_BYTES % align == 0
            && heap < self.heaps
    }

    /// The route of a request of the region, by its classes. At most 20 steps.
    #[tactic(auto, using(crate::proofs::Sizes::count_of))]
    #[inline(always)]
    pub fn route(&self, size: u32, align: u32) -> Route
        requires valid { IsValid self.now }
        requires align { IsAlignment align }
        ensures { result ≡ route_in self.now size align }
    {
        routing::route(self.classes, size, align)
    }

    /// The room of the block for such a request.
    #[tactic(auto, using(crate::proofs::Sizes::count_of))]
    pub fn room_for(&self, size: u32, align: u32) -> u32
        requires valid { IsValid self.now }
        requires size { size ≤ self.now.pages * 4096 }
        requires align { IsAlignment align }
        ensures { result ≡ room_in self.now size align }
    {
        routing::room_for(self.classes, size, align)
    }
}
