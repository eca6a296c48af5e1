//! What the names of a trace stand for.
ghost use Rattle.std.specs.Prelude.{◌≡◌, ◌<◌, ◌==◌, ℕ, Some, None, if◌then◌else◌, IfOk};
ghost use Rattle.pas_answers.specs.Names.{IsPackable, MayPack, block_in, block_named, names_held};

use pas_profile::limits::{GRAIN_BYTES, PAGE_BYTES};
use pas_profile::{Address, Block, Name, NoMemory};
use std::alloc::Global;
use std::mem::size_of;

/// How many turns the lower part of one tells apart.
const TURNS: u64 = 1 << 32;

/// How many numbers of grains the lower part of one tells apart.
const GRAINS: u32 = 1 << 16;

/// What one name of a trace stands for: a block, by its parts, or nothing. It has 12 bytes, where an `Option<Block>` has 32.
#[derive(Clone, Copy, Drop)]
pub struct Meaning {
    /// The page on which the block begins. Page 0 doesn't exist, so that it says that there is no block.
    page: u16,
    /// The grain of that page.
    grain: u8,
    heap: u8,
    /// The lower 32 bits of the turn.
    turn: u32,
    /// The lower 16 bits of the number of grains.
    grains: u16,
    /// The bits of the number of grains above those.
    more_grains: u8,
    /// The bits of the turn above those.
    later_turn: u8,
}

const _: () = prove!(size_of::<Meaning>() == 12);

/// No request had the name, or the request was refused.
const NOTHING: Meaning = Meaning {
    page: 0,
    grain: 0,
    heap: 0,
    turn: 0,
    grains: 0,
    more_grains: 0,
    later_turn: 0,
};

/// What each name of a trace stands for, at the place of the name. 12 bytes a name.
#[derive(Drop)]
pub struct Names {
    meanings: Vec<Meaning>,
}

impl Meaning {
    /// That of a block.
    #[inline]
    fn of_block(block: Block) -> Meaning
        requires { IsPackable block }
        ensures { block_in result ≡ Some block }
    {
        let Block { name, room, heap } = block;
        let address = name.address.0;
        let grains = room / GRAIN_BYTES;
        Meaning {
            page: (address / PAGE_BYTES) as u16,
            grain: (address % PAGE_BYTES / GRAIN_BYTES) as u8,
            heap,
            turn: (name.turn % TURNS) as u32,
            grains: (grains % GRAINS) as u16,
            more_grains: (grains / GRAINS) as u8,
            later_turn: (name.turn / TURNS) as u8,
        }
    }

    /// That of a block, or of nothing.
    #[inline]
    pub fn of(block: Option<Block>) -> Meaning
        requires { MayPack block }
        ensures { block_in result ≡ block }
    {
        match block {
            Some(block) => Meaning::of_block(block),
            None => NOTHING,
        }
    }

    /// The block, if any.
    #[inline]
    pub fn block(self) -> Option<Block>
        ensures { result ≡ block_in self }
    {
        if self.page == 0 {
            return None;
        }
        let grains = self.more_grains as u32 * GRAINS + self.grains as u32;
        Some(Block {
            name: Name {
                address: Address(self.page as u32 * PAGE_BYTES + self.grain as u32 * GRAIN_BYTES),
                turn: self.later_turn as u64 * TURNS + self.turn as u64,
            },
            room: grains * GRAIN_BYTES,
            heap: self.heap,
        })
    }
}

impl Names {
    /// No name stands for a block. There is room for the names below the limit.
    pub fn try_new(alloc: Global, limit: usize) -> Result<Names, NoMemory>
        ensures empty { IfOk result (λ names. (name : ℕ) → block_named names name ≡ None) }
        ensures room { IfOk result (λ names. names_held names ≡ limit) }
    {
        match vec![in alloc; NOTHING; limit] {
            Ok(meanings) => Ok(Names { meanings }),
            Err(_) => Err(NoMemory),
        }
    }

    /// From now on the name has this meaning.
    #[inline]
    pub fn set_meaning(&mut self, name: u32, meaning: Meaning)
        requires { name < names_held self.old }
        ensures names { (n : ℕ) → block_named self.new n ≡ (if name == n then block_in meaning else block_named self.old n) }
        ensures room { names_held self.new ≡ names_held self.old }
    {
        self.meanings[name as usize] = meaning;
    }

    /// From now on the name stands for this.
    #[inline]
    pub fn set(&mut self, name: u32, block: Option<Block>)
        requires room { name < names_held self.old }
        requires packs { MayPack block }
        ensures names { (n : ℕ) → block_named self.new n ≡ (if name == n then block else block_named self.old n) }
        ensures room { names_held self.new ≡ names_held self.old }
    {
        self.set_meaning(name, Meaning::of(block));
    }

    /// What the name stands for.
    #[inline(always)]
    pub fn get(&self, name: u32) -> Option<Block>
        ensures { result ≡ block_named self.now name }
    {
        match self.meanings.get(name as usize) {
            Some(meaning) => meaning.block(),
            None => None,
        }
    }
}
