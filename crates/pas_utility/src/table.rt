//! The table of heaps.
ghost use Rattle.std.specs.Prelude.{◌≡◌, ◌<◌};
ghost use Rattle.pas_profile.specs.{Directories.{IsKind, number_of}, Requests.kind_of_class};
ghost use Rattle.pas_utility.specs.Heaps.{marks_of, is_marked};

use pas_profile::{Directory, Kind, Profile};

/// Which heaps of a profile are served by shared pages. Heap 0 is the common primitive heap.
#[derive(Clone, Copy, PartialEq, Eq, Drop)]
pub struct HeapTable {
    /// Bit h is set where heap h is declared as shared.
    shared: u32,
}

impl HeapTable {
    /// The table of the profile's heaps.
    pub fn new(profile: &Profile) -> HeapTable
        ensures { marks_of result ≡ profile.now.shared }
    {
        HeapTable {
            shared: profile.shared,
        }
    }

    /// The kind of the pages that serve the class in the heap: shared ones where the heap is declared as shared, and elsewhere those of the
    /// class alone. The heap is 0 to 31.
    pub fn kind_for(&self, heap: u8, class: u8) -> Kind
        requires heap { heap < 32 }
        ensures { result ≡ kind_of_class (is_marked self.now heap) class }
    {
        if self.shared >> heap & 1 == 1 {
            Kind::Shared
        } else {
            Kind::Class(class)
        }
    }

    /// The number of the directory of the heap's pages of this kind, which is `heap * 23` and the number of the kind.
    pub fn directory(&self, heap: u8, kind: Kind) -> u16
        requires heap { heap < 32 }
        requires kind { IsKind kind }
        ensures { result ≡ number_of record { heap = heap; kind = kind } }
    {
        Directory { heap, kind }.number()
    }
}
