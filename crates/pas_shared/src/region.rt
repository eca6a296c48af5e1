//! The region that the actors share.
ghost use Rattle.std.specs.Prelude.{◌≡◌, [], vec_len};
ghost use Rattle.pas_profile.specs.{Layouts.words_of, Profiles.IsValid};
ghost use Rattle.pas_shared.specs.declared.rule.Roster.TheVariants.{Unused};

use crate::rule::{OneList, Roster, TableSeat};
use atomic_table::Table;
use pas_profile::{Layout, Profile};
use std::alloc::Global;

/// A region whose words lie in a table of atomic words. Any number of actors sit at it at once.
#[derive(Drop)]
pub struct SharedRegion {
    pub(crate) table: Table<(), Roster, Profile, OneList, Global>,
    pub(crate) profile: Profile,
    pub(crate) layout: Layout,
    pub(crate) closed_words: Vec<u64>,
    ghost keyed: { (table.shared.key ≡ profile) × (table.shared.table_id.words ≡ words_of profile.pages profile.heaps) × (table.shared.table_id.slots ≡ 0) },
    ghost valid: { IsValid profile },
    ghost laid: { (layout.pages ≡ profile.pages) × (layout.heaps ≡ profile.heaps) },
    ghost sized: { vec_len closed_words ≡ words_of profile.pages profile.heaps },
}

/// A region at which nobody has a seat yet. It may be handed from one thread to another.
#[derive(Drop)]
pub struct Opening {
    pub(crate) region: SharedRegion,
    /// Names all actors, none of which made a step.
    pub(crate) seat: TableSeat,
    ghost placed: { seat.table_id ≡ region.table.shared.table_id },
    ghost unused: { seat.me ≡ (Unused 0, []) },
}

impl SharedRegion {
    ghost use Rattle.pas_shared.specs.Passes.{profile_of};

    /// The profile of the region.
    #[inline]
    pub fn profile(&self) -> &Profile
        ensures { result.now ≡ profile_of self.now }
    {
        &self.profile
    }
}

impl Opening {
    ghost use Rattle.pas_shared.specs.Passes.{profile_of_opening};

    /// The profile of the region.
    #[inline]
    pub fn profile(&self) -> &Profile
        ensures { result.now ≡ profile_of_opening self.now }
    {
        &self.region.profile
    }
}
