//! What gives blocks another size in a replay.

use pas_answers::reallocate;
use pas_cache::{Moved, ThreadCache};
use pas_large::Door;
use pas_profile::{Block, NoRoom};
use pas_replay::Remake;
use pas_steps::Desk;

/// Reallocation as a replay is handed it: each block gets another size by `pas_answers::reallocate`.
#[derive(Clone, Copy, Drop)]
pub struct Reallocation;

impl Remake for Reallocation {
    fn remake<D: Desk, O: Door>(
        &self,
        cache: &mut ThreadCache,
        desk: &mut D,
        door: &mut O,
        old: Block,
        size: u32,
        align: u32,
    ) -> Result<Moved, NoRoom> {
        reallocate(cache, desk, door, old, size, align)
    }
}
