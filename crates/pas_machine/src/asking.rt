//! What a machine says of a page and of a grain.
ghost use Rattle.std.specs.Prelude.{◌≡◌, ◌*◌, ◌<◌, MatchBool, List};
ghost use Rattle.pas_profile.specs.{Profiles.IsPage, declared.event.Event.Event as TheEvent};
ghost use Rattle.pas_machine.specs.{State.{deed_in, backed_in, epoch_in, live_in, gives_in}, Machines.{profile_of, StandsFor}, Places.{IsCovered, block_of}};
ghost use Rattle.pas_machine.specs.Places.{grains_of};

use crate::machine::Machine;
use pas_profile::{Address, Block, Directory, Profile};

impl Machine {
    /// The profile of the machine's region.
    pub fn profile(&self) -> Profile
        ensures { result ≡ profile_of self.now }
    {
        self.profile
    }

    /// Whether the region has the page. One look.
    pub fn has_page(&self, page: u32) -> bool
        ensures { MatchBool result (IsPage (profile_of self.now) page) (IsPage (profile_of self.now) page → ⊥) }
    {
        page >= 1 && page <= self.profile.pages
    }

    /// The directory of the page's deed; None where it has none. One look.
    pub fn deed_of(&self, page: u32) -> Option<Directory>
        requires { IsPage (profile_of self.now) page }
        ensures { (es : List TheEvent) → StandsFor self.now es → result ≡ deed_in es page }
    {
        self.pages[page as usize].directory
    }

    /// Whether the page is backed. One look.
    pub fn is_backed(&self, page: u32) -> bool
        requires { IsPage (profile_of self.now) page }
        ensures { (es : List TheEvent) → StandsFor self.now es → result ≡ backed_in es page }
    {
        self.pages[page as usize].backed
    }

    /// The greatest epoch of an end on the page, and 0 before the first one. One look.
    pub fn last_end(&self, page: u32) -> u64
        requires { IsPage (profile_of self.now) page }
        ensures { (es : List TheEvent) → StandsFor self.now es → result ≡ epoch_in es page }
    {
        self.pages[page as usize].epoch
    }
    /// The block that lives at the grain of this number in the region; None where none begins there. Page 1 begins at grain 256. One look.
    pub fn block_at(&self, grain: u32) -> Option<Block>
        requires { grain < grains_of (profile_of self.now) }
        ensures { (es : List TheEvent) → StandsFor self.now es → result ≡ block_of (live_in es (16 * grain)) }
    {
        self.places[grain as usize].block_at(Address(16 * grain))
    }

    /// How many blocks were given at the grain of this number. One look.
    pub fn gives_at(&self, grain: u32) -> u64
        requires { grain < grains_of (profile_of self.now) }
        ensures { (es : List TheEvent) → StandsFor self.now es → result ≡ gives_in es (16 * grain) }
    {
        self.places[grain as usize].gives
    }

    /// Whether a live block has the grain of this number. One look.
    pub fn is_covered(&self, grain: u32) -> bool
        requires { grain < grains_of (profile_of self.now) }
        ensures { (es : List TheEvent) → StandsFor self.now es → IsCovered es grain result }
    {
        self.covered[grain as usize]
    }
}
