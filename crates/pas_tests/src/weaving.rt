//! The events of two actors in one list, and the blocks that live after them.

use pas_profile::{Block, Event};
use std::alloc::{AllocError, Global};

/// An event, and the number of the own step at which it came: at that step where it is the own actor's, before it where it is a guest's.
#[derive(Clone, Copy, Drop)]
pub struct Timed {
    pub at: u64,
    pub event: Event,
}

/// Adds the foreign events from this place on that came before this own step or an earlier one. The place of the first that is left.
fn push_until(
    woven: &mut Vec<Event>,
    foreign: &[Timed],
    from: usize,
    at: u64,
) -> Result<usize, AllocError> {
    for place in from..foreign.len() {
        if foreign[place].at > at {
            return Ok(place);
        }
        woven.push(foreign[place].event)?;
    }
    Ok(foreign.len())
}

/// The events of both, the oldest first: a foreign one comes before an own one where it came before that own step or an earlier one.
pub fn weave(alloc: Global, own: &[Timed], foreign: &[Timed]) -> Result<Vec<Event>, AllocError> {
    let mut woven = Vec::new(alloc);
    let mut rest = 0;
    for mine in own {
        rest = push_until(&mut woven, foreign, rest, mine.at)?;
        woven.push(mine.event)?;
    }
    push_until(&mut woven, foreign, rest, u64::MAX)?;
    Ok(woven)
}

/// The blocks that live after these events.
pub fn live_after(alloc: Global, events: &[Event]) -> Result<Vec<Block>, AllocError> {
    let mut live: Vec<Block> = Vec::new(alloc);
    for event in events {
        match *event {
            Event::Give { block, .. } => live.push(block)?,
            Event::End { name, .. } => live.retain(|block| block.name != name),
            _ => {}
        }
    }
    Ok(live)
}
