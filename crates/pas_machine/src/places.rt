//! What a machine keeps of a page and of an address.
ghost use Rattle.std.specs.Prelude.{◌≡◌, IfOk, replicate, false};
ghost use Rattle.pas_machine.specs.Places.{blank_page, blank_place};

use pas_profile::{Address, Block, Directory, Name, NoMemory};
use std::alloc::Global;

/// What a machine keeps of a page.
#[derive(Clone, Copy, Drop)]
pub(crate) struct Page {
    pub directory: Option<Directory>,
    pub backed: bool,
    /// The greatest epoch of an end on the page, at first 0.
    pub epoch: u64,
}

/// What a machine keeps of an address: whether a block lives there, of which heap and room, and how many were given there. There is one for
/// each grain, so it is kept small, at 16 bytes: the block's name isn't in it, since its address is that of the place, and its turn follows
/// from the gives.
#[derive(Clone, Copy, Drop)]
pub(crate) struct Place {
    pub lives: bool,
    /// The heap of the block, and 0 where none lives.
    pub heap: u8,
    /// The room of the block, and 0 where none lives.
    pub room: u32,
    pub gives: u64,
}

impl Page {
    ghost use Rattle.std.specs.Prelude.{MatchBool};
    ghost use Rattle.pas_machine.specs.Places.{IsOfHeap};

    /// A page that nothing happened to.
    pub(crate) fn blank() -> Page
        ensures { result ≡ blank_page }
    {
        Page {
            directory: None,
            backed: false,
            epoch: 0,
        }
    }

    /// Whether the page has a deed of the heap.
    pub(crate) fn is_of(&self, heap: u8) -> bool
        ensures { MatchBool result (IsOfHeap heap self.now.directory) (IsOfHeap heap self.now.directory → ⊥) }
    {
        match &self.directory {
            Some(directory) => directory.heap == heap,
            None => false,
        }
    }
}

impl Place {
    ghost use Rattle.pas_machine.specs.Places.{bare_place, block_at};

    /// An address at which so many blocks were given, and none lives.
    pub(crate) fn bare(gives: u64) -> Place
        ensures { result ≡ bare_place gives }
    {
        Place {
            lives: false,
            heap: 0,
            room: 0,
            gives,
        }
    }

    /// The block that lives at this address, whose place this is; None where none does.
    pub(crate) fn block_at(&self, address: Address) -> Option<Block>
        ensures { result ≡ block_at self.now address }
    {
        if !self.lives {
            return None;
        }
        let name = Name {
            address,
            turn: self.gives.saturating_sub(1),
        };
        Some(Block {
            name,
            room: self.room,
            heap: self.heap,
        })
    }
}

/// So many blank pages.
pub(crate) fn blank_pages(alloc: Global, count: usize) -> Result<Vec<Page>, NoMemory>
    ensures { IfOk result (λ pages. pages.items ≡ replicate count blank_page) }
{
    let Ok(pages) = vec![in alloc; Page::blank(); count] else {
        return Err(NoMemory);
    };
    Ok(pages)
}

/// So many blank places.
pub(crate) fn blank_places(alloc: Global, count: usize) -> Result<Vec<Place>, NoMemory>
    ensures { IfOk result (λ places. places.items ≡ replicate count blank_place) }
{
    let Ok(places) = vec![in alloc; Place::bare(0); count] else {
        return Err(NoMemory);
    };
    Ok(places)
}

/// So many grains that no block has.
pub(crate) fn free_grains(alloc: Global, count: usize) -> Result<Vec<bool>, NoMemory>
    ensures { IfOk result (λ grains. grains.items ≡ replicate count false) }
{
    let Ok(grains) = vec![in alloc; false; count] else {
        return Err(NoMemory);
    };
    Ok(grains)
}
