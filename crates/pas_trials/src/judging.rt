//! What is looked for when all actors of a region are at rest.
ghost use Rattle.std.specs.{Prelude.{◌≡◌, ◌+◌, ◌*◌, ◌<◌, ◌↔◌, ℕ, IsTrue, MatchOption, Some}, List.list_any};
ghost use Rattle.pas_bits.specs.Masks.{is_set};
ghost use Rattle.pas_profile.specs.{Directories.{IsKind, directory_read}, Profiles.{IsPage, IsDirectoryOf}};
ghost use Rattle.pas_profile.specs.declared.word.Word.TheVariants as TheWord;
ghost use Rattle.pas_steps.specs.{States.{profile_of, word_in}, Views.usable_by_kind};
ghost use Rattle.pas_trials.specs.Judging.{is_free, IsOffered, IsKept, IsMinded, covers, IsCounted, IsSound, IsFault, IsSoundPage, HasFault, IsFirstFault};
ghost use Rattle.pas_trials.specs.Judging.{AreSound};

use pas_bits::Mask4;
use pas_bits::page_vector::has_page;
use pas_profile::{Block, Directory, Kind, Word, read_deed, slot_mask};
use pas_steps::State;

/// What may be wrong with a region whose actors are at rest.
#[derive(Clone, Copy, PartialEq, Eq, Drop)]
pub enum Fault {
    /// The page has a free grain that blocks of its directory may cover, and isn't offered.
    Lost(u32),
    /// The page is backed, all its grains are free, and it isn't hinted.
    NotHinted(u32),
    /// A grain of the page is free and covered by a live block, or neither.
    Miscounted(u32),
    /// The event of this place, from 0 on, may not come after those before it.
    Unlawful(usize),
}

/// The free grains of the page.
fn free_grains(state: &State, page: u32) -> Mask4
    requires page { IsPage (profile_of state.now) page }
    ensures { (g : ℕ) → g < 256 → is_set result g ≡ is_free state.now page g }
{
    Mask4([
        state.word(Word::Free(page, 0)),
        state.word(Word::Free(page, 1)),
        state.word(Word::Free(page, 2)),
        state.word(Word::Free(page, 3)),
    ])
}

/// The grains of a page that blocks of its kind may cover.
fn usable_grains(kind: Kind) -> Mask4
    requires kind { IsKind kind }
    ensures { (g : ℕ) → g < 256 → is_set result g ≡ usable_by_kind kind g }
{
    match kind {
        Kind::Class(class) => Mask4(slot_mask(class)),
        Kind::Bitfit | Kind::Shared | Kind::Large => Mask4([u64::MAX; 4]),
    }
}

/// Whether the directory is of the region, and the page is offered to it.
fn is_offered(state: &State, page: u32, directory: Directory) -> bool
    requires page { IsPage (profile_of state.now) page }
    requires kind { IsKind directory.kind }
    ensures { IsTrue result ↔ IsOffered state.now page directory }
{
    directory.heap < state.profile().heaps
        && has_page(
            state.word(Word::Eligible(directory.number(), page / 64)),
            page,
        )
}

/// Whether the page of this directory is offered wherever some grain is free that its blocks may cover.
fn is_kept(state: &State, page: u32, directory: Directory) -> bool
    requires page { IsPage (profile_of state.now) page }
    requires kind { IsKind directory.kind }
    ensures { IsTrue result ↔ IsKept state.now page directory }
{
    is_offered(state, page, directory)
        || free_grains(state, page).is_full(&usable_grains(directory.kind))
}

/// Whether the page is hinted wherever it is backed and all its grains are free.
fn is_minded(state: &State, page: u32) -> bool
    requires page { IsPage (profile_of state.now) page }
    ensures { IsTrue result ↔ IsMinded state.now page }
{
    if state.word(Word::Backed(page)) != 1 {
        return true;
    }
    if !free_grains(state, page).complement().is_empty() {
        return true;
    }
    has_page(state.word(Word::Empty(page / 64)), page)
}

/// Whether one of the blocks covers the grain.
fn is_covered(live: &[Block], grain: u32) -> bool
    ensures { result ≡ list_any (covers grain) live.now }
{
    for block in live {
        let first = block.name.address.0 / 16;
        if first <= grain && grain - first < block.room / 16 {
            return true;
        }
    }
    false
}

/// Whether each grain of the page is free or covered by one of the blocks, and none is both.
fn is_counted(state: &State, page: u32, live: &[Block]) -> bool
    requires page { IsPage (profile_of state.now) page }
    requires few { page < 65536 }
    ensures { IsTrue result ↔ IsCounted state.now page live.now }
{
    let free = free_grains(state, page);
    for grain in 0..256u32 {
        if free.get(grain as u8) == is_covered(live, 256 * page + grain) {
            return false;
        }
    }
    true
}

/// The first fault of the page, which has this directory.
fn fault_of(state: &State, page: u32, directory: Directory, live: &[Block]) -> Option<Fault>
    requires page { IsPage (profile_of state.now) page }
    requires kind { IsKind directory.kind }
    ensures { MatchOption result (IsSound state.now page live.now directory) (IsFault state.now page live.now directory) }
{
    if !is_kept(state, page, directory) {
        return Some(Fault::Lost(page));
    }
    if !is_minded(state, page) {
        return Some(Fault::NotHinted(page));
    }
    if !is_counted(state, page, live) {
        return Some(Fault::Miscounted(page));
    }
    None
}

/// The first fault of the page. A page without a deed has none.
fn judge_page(state: &State, page: u32, live: &[Block]) -> Option<Fault>
    requires page { IsPage (profile_of state.now) page }
    ensures { MatchOption result (IsSoundPage state.now live.now page) (HasFault state.now live.now page) }
{
    let directory = read_deed(state.word(Word::Deed(page)))?;
    fault_of(state, page, directory, live)
}

/// The fault of the lowest page that has one, where just these blocks live and all actors are at rest. None exactly where no page has one.
pub fn judge(state: &State, live: &[Block]) -> Option<Fault>
    ensures { MatchOption result (AreSound state.now live.now) (IsFirstFault state.now live.now) }
{
    for before in 0..state.profile().pages {
        let fault = judge_page(state, before + 1, live);
        if fault.is_some() {
            return fault;
        }
    }
    None
}
