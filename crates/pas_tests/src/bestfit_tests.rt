//! Blocks at the best place of a page.

use crate::seating::plain_profile;
use pas_plain::beside;
use pas_profile::*;
use pas_trials::{change, close_both};
use std::alloc::Global;
use std::test::Fail;

/// Actor 1 asks for 100 bytes, and then actor 2 for 200. Both answers.
fn two_requests(alloc: Global) -> Result<[Result<Block, NoRoom>; 2], Fail> {
    let (mut desk, pass) = beside(alloc, plain_profile(2), 3)?;
    let first = pas_bestfit::alloc(&mut desk, 0, 100);
    let (mut desk, pass) = change(desk, pass);
    let second = pas_bestfit::alloc(&mut desk, 0, 200);
    close_both(alloc, desk, pass)?;
    Ok([first, second])
}

/// The first block of so much room at this address, of heap 0.
fn block(address: u32, room: u32) -> Block {
    Block {
        name: Name {
            address: Address(address),
            turn: 0,
        },
        room,
        heap: 0,
    }
}

#[test]
fn each_gets_the_grains_that_hold_it_and_no_more(rt: HostRuntime) -> Result<(), Fail> {
    let blocks = two_requests(rt.alloc())?;
    assert!(rt; blocks[0] == Ok(block(0x1000, 112)));
    assert!(rt; blocks[1] == Ok(block(0x1070, 208)));
    Ok(())
}
