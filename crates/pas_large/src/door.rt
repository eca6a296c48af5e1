//! Indexes of ranges of pages.
ghost use Rattle.std.specs.Prelude.{◌≡◌, ◌≤◌, ◌+◌, ℕ, Option, None};
ghost use Rattle.pas_profile.specs.declared.event.Range.{Range as TheRange};

use pas_profile::Range;

/// The indexes of the heaps, each of ranges of pages where large blocks ended. A large request asks it before it scans the pages.
///
/// An answer is a hint. A heap without an index has no range, and a range that is settled for it is forgotten.
pub trait Door {
    /// What an answer of `find` tells: by the indexes before and after it, the heap, and the number of pages that was asked for.
    ghost answers: { Self → Self → ℕ → ℕ → Option ℕ → Type 0 };

    /// How `settle` changes the indexes.
    ghost settles: { Self → Self → ℕ → TheRange → Type 0 };

    /// The first page of the lowest range of at least so many pages; the first so many pages of it are cut out of the heap's index. None where no
    /// range is as long.
    fn find(&mut self, heap: u8, pages: u32) -> Option<u32>
        requires some { 1 ≤ pages }
        ensures answers { answers self.old self.new heap pages result };

    /// Adds the pages to the heap's index, or forgets them.
    fn settle(&mut self, heap: u8, range: Range)
        requires first { 1 ≤ range.first }
        requires some { 1 ≤ range.pages }
        requires last { range.first + range.pages ≤ 65536 }
        ensures settles { settles self.old self.new heap range };
}

/// No heap has an index.
#[derive(Clone, Copy, PartialEq, Eq, Drop)]
pub struct NoIndex;

impl Door for NoIndex {
    ghost answers = { λ before after heap pages found. found ≡ None };

    ghost settles = { λ before after heap range. after ≡ before };

    fn find(&mut self, _heap: u8, _pages: u32) -> Option<u32> {
        None
    }

    fn settle(&mut self, _heap: u8, _range: Range) {}
}
