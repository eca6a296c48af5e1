//! What the names of the trace stand for, as far as the transcript tells.
ghost use Rattle.std.specs.Prelude.{ℕ, ◌≡◌, ◌<◌, ◌≤◌, ◌^◌, ◌==◌, if◌then◌else◌, None, Some, IfOk, IfSome};
ghost use Rattle.pas_check.specs.Meanings.{heap_in, meaning_at, meaning_of};

use pas_profile::{Block, NoMemory};
use std::alloc::Global;

/// What a name stands for: nothing yet, since no request had it; nothing, since its request was refused; or the block that was given.
#[derive(Clone, Copy, Drop)]
pub(crate) enum Meaning {
    Unasked,
    Refused,
    Given(Block),
}

/// What each name stands for, at the place of the name. 32 bytes a name.
#[derive(Drop)]
pub(crate) struct Names {
    meanings: Vec<Meaning>,
    ghost heaps: { (name : ℕ) → heap_in (meaning_at meanings.items name) < 32 },
}

impl Meaning {
    /// That of a block that was given, or of a request that was refused.
    fn of(block: Option<Block>) -> Meaning
        ensures meaning { meaning_of result ≡ Some block }
        ensures heap { IfSome block (λ b. b.heap < 32) → heap_in result < 32 }
    {
        match block {
            Some(block) => Meaning::Given(block),
            None => Meaning::Refused,
        }
    }
}

impl Names {
    ghost use Rattle.pas_check.specs.Tables.{meant, names_held};

    /// No request had a name. There is room for the names below the limit, which is at most 2^32: there is no memory for more.
    pub(crate) fn try_new(alloc: Global, limit: usize) -> Result<Names, NoMemory>
        ensures empty { IfOk result (λ names. (name : ℕ) → meant names name ≡ None) }
        ensures room { IfOk result (λ names. names_held names ≡ limit) }
        ensures few { IfOk result (λ names. limit ≤ 2 ^ 32) }
    {
        if limit > u32::MAX as usize {
            return Err(NoMemory);
        }
        match vec![in alloc; Meaning::Unasked; limit] {
            Ok(meanings) => Ok(Names { meanings }),
            Err(_) => Err(NoMemory),
        }
    }

    /// From now on the name stands for this.
    pub(crate) fn set(&mut self, name: u32, block: Option<Block>)
        requires name { name < names_held self.old }
        requires heap { IfSome block (λ b. b.heap < 32) }
        ensures names { (n : ℕ) → meant self.new n ≡ (if name == n then Some block else meant self.old n) }
        ensures room { names_held self.new ≡ names_held self.old }
    {
        self.meanings[name as usize] = Meaning::of(block);
    }

    /// What the name stands for: None where no request had it, and nothing where its request was refused.
    pub(crate) fn get(&self, name: u32) -> Option<Option<Block>>
        ensures meant { result ≡ meant self.now name }
        ensures heap { IfSome result (λ found. IfSome found (λ b. b.heap < 32)) }
    {
        match self.meanings.get(name as usize) {
            Some(Meaning::Given(block)) => Some(Some(*block)),
            Some(Meaning::Refused) => Some(None),
            Some(Meaning::Unasked) | None => None,
        }
    }
}
