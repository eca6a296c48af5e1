//! Ends by a room, at a plain region.

use crate::seating::{cache_for, plain_profile};
use pas_plain::beside;
use pas_profile::*;
use pas_steps::Desk;
use pas_trials::borrow_and_end;
use std::test::Fail;

/// The first block of page 1.
const NAME: Name = Name {
    address: Address(4096),
    turn: 0,
};

/// Whether the answer is the first block of page 1, of 32 bytes, and the three ends read its life word, living twice and ended then.
pub fn are_of_one_block(block: &Result<Block, NoRoom>, read: [u64; 3]) -> bool {
    let first = Block {
        name: NAME,
        room: 32,
        heap: 0,
    };
    *block == Ok(first) && read == [0x8000020000000000, 0x8000020000000000, 1]
}

/// Whether the last events are that the block has another room, its end, and that it has ended.
pub fn are_of_three_ends(shown: &[Event]) -> bool {
    let last = [
        Event::Reject {
            actor: 1,
            name: NAME,
            why: Why::SizeDiffers(48),
        },
        Event::End {
            actor: 1,
            name: NAME,
            epoch: 0,
        },
        Event::Reject {
            actor: 1,
            name: NAME,
            why: Why::Ended,
        },
    ];
    shown.ends_with(&last)
}

#[test]
fn a_block_ends_by_its_own_room_alone(rt: HostRuntime) -> Result<(), Fail> {
    let (mut desk, _) = beside(rt.alloc(), plain_profile(1), 16)?;
    let mut cache = cache_for(rt.alloc(), plain_profile(1))?;
    let (block, read) = borrow_and_end(&mut desk, &mut cache);
    assert!(rt; are_of_one_block(&block, read));
    assert!(rt; are_of_three_ends(desk.shown()));
    Ok(())
}
