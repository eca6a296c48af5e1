//! How many operations were read, and how many records they may make.
ghost use Rattle.std.specs.Prelude.{◌≡◌, ◌<◌, ◌≤◌, ◌+◌, ◌*◌, ℕ, length, slice_index, slice_set};
ghost use Rattle.pas_profile.specs.Profiles.{IsValid};

use pas_profile::Profile;

/// The most operations of a trace.
pub const MOST_OPERATIONS: u32 = 1_000_000;

/// The most records that a trace may make, by its bound.
pub const MOST_RECORDS: u32 = 2_000_000;

/// What has been counted: the operations, the bound of all records, and the costs of each actor's own operations.
#[derive(Drop)]
pub struct Counts {
    pub operations: u32,
    pub bound: u32,
    pub costs: [u32; 17],
}

impl Counts {
    /// Before the first operation there is a deed for each thread and page.
    pub fn new(header: &Profile) -> Counts
        requires { IsValid header.now }
        ensures operations { result.operations ≡ 0 }
        ensures bound { result.bound ≡ header.now.threads * header.now.pages }
        ensures width { length result.costs ≡ 17 }
        ensures costs { (k : ℕ) → slice_index result.costs k ≡ 0 }
    {
        Counts {
            operations: 0,
            bound: header.threads as u32 * header.pages,
            costs: [0; 17],
        }
    }

    /// Counts a deed more for each thread and page: that of its keeper.
    pub fn add_keepers(&mut self, header: &Profile)
        requires valid { IsValid header.now }
        requires small { self.old.bound ≤ 2000000 }
        ensures operations { self.new.operations ≡ self.old.operations }
        ensures bound { self.new.bound ≡ self.old.bound + header.now.threads * header.now.pages }
        ensures costs { self.new.costs ≡ self.old.costs }
    {
        self.bound += header.threads as u32 * header.pages;
    }

    /// Counts an operation of the actor.
    #[inline(always)]
    pub fn add(&mut self, actor: u8, cost: u32)
        requires actor { actor < 17 }
        requires few { self.old.operations < 1000000 }
        requires small { self.old.bound + cost ≤ 2000000 }
        requires within { slice_index self.old.costs actor ≤ self.old.bound }
        ensures operations { self.new.operations ≡ self.old.operations + 1 }
        ensures bound { self.new.bound ≡ self.old.bound + cost }
        ensures costs { self.new.costs ≡ slice_set self.old.costs actor (slice_index self.old.costs actor + cost) }
    {
        self.operations += 1;
        self.bound += cost;
        self.costs[actor as usize] += cost;
    }
}
