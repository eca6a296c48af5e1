//! The first reason why an event may not come next, if there is one, in the order of the reasons.
ghost use Rattle.std.specs.Prelude.{ℕ, ◌≡◌, ◌+◌, ◌<◌, ◌≤◌, MatchBool, MatchOption, IfOk, IfErr, List, None};
ghost use Rattle.pas_profile.specs.{Profiles.IsPage, Blocks.{address_of, grain_of, length_of}, declared.event.Event.Event as TheEvent};
ghost use Rattle.pas_machine.specs.{State.ends_in, Machine.{IsPlace, IsLive, HasOtherRoom}, Machines.{profile_of, StandsFor}, Reasons.{IsOutside, IsNoPlace}};
ghost use Rattle.pas_machine.specs.{Reasons.{IsBroken, IsNoRun, IsVerdict, IsFirst}, Places.{IsInside, IsWhole, IsWithin, IsLiveBlock, grains_of}};

use crate::fault::Illegal;
use crate::looking::{is_some_covered, lacks_backing, lacks_deed};
use crate::machine::Machine;
use pas_profile::{Address, Block, Directory, Name, Why};

/// Whether the block is of whole grains, and has one.
fn is_whole(block: &Block) -> bool
    ensures { MatchBool result (IsWhole block.now) (IsBroken block.now) }
{
    block.name.address.0 % 16 == 0 && block.room != 0 && block.room % 16 == 0
}

impl Machine {
    fn is_outside(&self, page: u32) -> bool
        ensures { MatchBool result (IsOutside (profile_of self.now) page) (IsPage (profile_of self.now) page) }
    {
        page < 1 || page > self.profile.pages
    }

    fn is_no_place(&self, address: Address) -> bool
        ensures { MatchBool result (IsNoPlace (profile_of self.now) address.0) (IsPlace (profile_of self.now) address.0) }
    {
        self.is_outside(address.page()) || address.0 % 16 != 0
    }

    /// Whether some grain of the block is of no page of the region.
    fn reaches_out(&self, block: &Block) -> bool
        requires { IsWhole block.now }
        ensures { MatchBool result (IsNoRun (profile_of self.now) block.now) (IsWithin (profile_of self.now) block.now) }
    {
        let first = block.name.address.grain() as usize;
        first < 256 || first + block.grains() as usize > 256 * self.profile.pages as usize + 256
    }

    fn is_no_run(&self, block: &Block) -> bool
        ensures { MatchBool result (IsNoRun (profile_of self.now) block.now) (IsInside (profile_of self.now) block.now) }
    {
        !is_whole(block) || self.reaches_out(block)
    }

    /// The block of exactly this name, where it lives.
    fn live_block(&self, name: &Name) -> Option<Block>
        requires { IsPlace (profile_of self.now) (address_of name.now) }
        ensures { (es : List TheEvent) → StandsFor self.now es → MatchOption result (IsLive es name.now → ⊥) (IsLiveBlock es name.now) }
    {
        match self.places[name.address.grain() as usize].block_at(name.address) {
            Some(block) if block.name.turn == name.turn => Some(block),
            _ => None,
        }
    }

    /// Whether a block of exactly this name lives, with another room than this.
    fn has_other_room(&self, name: &Name, room: u32) -> bool
        requires { IsPlace (profile_of self.now) (address_of name.now) }
        ensures { (es : List TheEvent) → StandsFor self.now es → MatchBool result (HasOtherRoom es name.now room) (HasOtherRoom es name.now room → ⊥) }
    {
        match self.live_block(name) {
            Some(block) => block.room != room,
            None => false,
        }
    }

    /// How many blocks ended at the address: all that were given there, but for one that lives.
    fn ends(&self, address: Address) -> u64
        requires { IsPlace (profile_of self.now) address.0 }
        ensures { (es : List TheEvent) → StandsFor self.now es → result ≡ ends_in es address.0 }
    {
        let place = self.places[address.grain() as usize];
        if place.lives {
            place.gives.saturating_sub(1)
        } else {
            place.gives
        }
    }

    pub(crate) fn deed_reason(&self, page: u32, directory: Directory) -> Option<Illegal>
        ensures inside { result ≡ None → IsPage (profile_of self.now) page }
        ensures verdict { (k : ℕ) (es : List TheEvent) → StandsFor self.now es → IsVerdict (profile_of self.now) es (TheEvent.Deed k page directory) result }
    {
        if self.is_outside(page) {
            return Some(Illegal::BadPage);
        }
        if directory.heap >= self.profile.heaps {
            return Some(Illegal::BadHeap);
        }
        if self.pages[page as usize].directory.is_some() {
            return Some(Illegal::DeedTwice);
        }
        None
    }

    pub(crate) fn back_reason(&self, page: u32) -> Option<Illegal>
        ensures inside { result ≡ None → IsPage (profile_of self.now) page }
        ensures verdict { (k : ℕ) (es : List TheEvent) → StandsFor self.now es → IsVerdict (profile_of self.now) es (TheEvent.Back k page) result }
    {
        if self.is_outside(page) {
            return Some(Illegal::BadPage);
        }
        if self.pages[page as usize].directory.is_none() {
            return Some(Illegal::NoDeed);
        }
        if self.pages[page as usize].backed {
            return Some(Illegal::BackedTwice);
        }
        None
    }

    /// Looks at each grain of the page at most once.
    pub(crate) fn unback_reason(&self, page: u32, epoch: u64) -> Option<Illegal>
        ensures inside { result ≡ None → IsPage (profile_of self.now) page }
        ensures verdict { (k : ℕ) (es : List TheEvent) → StandsFor self.now es → IsVerdict (profile_of self.now) es (TheEvent.Unback k page epoch) result }
    {
        if self.is_outside(page) {
            return Some(Illegal::BadPage);
        }
        let number = page as usize;
        if !self.pages[number].backed {
            return Some(Illegal::NotBacked);
        }
        if is_some_covered(&self.covered, 256 * number, 256 * number + 256) {
            return Some(Illegal::LivesThere);
        }
        let last = self.pages[number].epoch;
        if epoch < last || epoch - last < self.profile.age {
            return Some(Illegal::TooYoung);
        }
        None
    }

    /// Looks at each page and each grain of the run at most once.
    pub(crate) fn give_reason(&self, block: &Block) -> Option<Illegal>
        ensures inside { result ≡ None → IsInside (profile_of self.now) block.now }
        ensures verdict { (k : ℕ) (es : List TheEvent) → StandsFor self.now es → IsVerdict (profile_of self.now) es (TheEvent.Give k block.now) result }
    {
        if self.is_no_run(block) {
            return Some(Illegal::BadPage);
        }
        if block.heap >= self.profile.heaps {
            return Some(Illegal::BadHeap);
        }
        let first = block.name.address.grain() as usize;
        let until = first + block.grains() as usize;
        let (first_page, until_page) = (first / 256, (until + 255) / 256);
        if lacks_deed(&self.pages, first_page, until_page, block.heap) {
            return Some(Illegal::NoDeed);
        }
        if lacks_backing(&self.pages, first_page, until_page) {
            return Some(Illegal::NotBacked);
        }
        if is_some_covered(&self.covered, first, until) {
            return Some(Illegal::LivesThere);
        }
        if self.places[first].gives != block.name.turn {
            return Some(Illegal::WrongTurn);
        }
        None
    }

    /// The block that ends with its name, or the first reason why the name can't end.
    pub(crate) fn ending(&self, name: &Name) -> Result<Block, Illegal>
        ensures place { IfOk result (λ _. IsPlace (profile_of self.now) (address_of name.now)) }
        ensures within { IfOk result (λ block. grain_of name.now + length_of block ≤ grains_of (profile_of self.now)) }
        ensures live { (es : List TheEvent) → StandsFor self.now es → IfOk result (IsLiveBlock es name.now) }
        ensures reason { (k epoch : ℕ) (es : List TheEvent) → StandsFor self.now es → IfErr result (IsFirst (profile_of self.now) es (TheEvent.End k name.now epoch)) }
    {
        if self.is_no_place(name.address) {
            return Err(Illegal::BadPage);
        }
        match self.live_block(name) {
            Some(block) => Ok(block),
            None => Err(Illegal::NotLive),
        }
    }

    pub(crate) fn reject_reason(&self, name: &Name, why: Why) -> Option<Illegal>
        ensures { (k : ℕ) (es : List TheEvent) → StandsFor self.now es → IsVerdict (profile_of self.now) es (TheEvent.Reject k name.now why) result }
    {
        if self.is_no_place(name.address) {
            return Some(Illegal::BadPage);
        }
        let has_ended = self.ends(name.address) > name.turn;
        let is_true = match why {
            Why::Ended => has_ended,
            Why::NoBlock => !has_ended && self.live_block(name).is_none(),
            Why::SizeDiffers(room) => !has_ended && self.has_other_room(name, room),
        };
        if is_true {
            None
        } else {
            Some(Illegal::WrongReason)
        }
    }
}
