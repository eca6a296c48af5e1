//! Two blocks, and the slots of two classes, on one page.

use crate::seating::plain_profile;
use pas_bitfit::end_bits;
use pas_bits::Mask4;
use pas_plain::beside;
use pas_profile::*;
use pas_segregated::Slots;
use pas_trials::{Allocated, Filled, allocate, change, close_both, fill_shared};
use std::alloc::Global;
use std::test::Fail;

/// Actor 1 asks for a bit-fit block of 528 bytes, and then actor 2 for one of 64 bytes at a multiple of 2,048. Both, and where the blocks
/// of page 1 end then.
fn two_blocks(alloc: Global) -> Result<([Allocated; 2], Mask4), Fail> {
    let (mut desk, pass) = beside(alloc, plain_profile(2), 3)?;
    let first = allocate(&mut desk, 528, 16);
    let (mut desk, pass) = change(desk, pass);
    let second = allocate(&mut desk, 64, 2048);
    let state = close_both(alloc, desk, pass)?;
    Ok(([first, second], end_bits(&state, 1)))
}

/// Actor 1 refills slots of 48 bytes from a shared page, and keeps them. Then actor 2 refills slots of 16 bytes, and stops them.
fn two_views(alloc: Global) -> Result<[Result<Filled, NoRoom>; 2], Fail> {
    let (mut desk, pass) = beside(alloc, plain_profile(1), 2)?;
    let first = fill_shared(&mut desk, 2, false);
    let (mut desk, pass) = change(desk, pass);
    let second = fill_shared(&mut desk, 0, true);
    close_both(alloc, desk, pass)?;
    Ok([first, second])
}

/// Whether the answer was a block of so much room at this address, after so many steps.
fn is_block(allocated: &Allocated, address: u32, room: u32, allocated_at: u64) -> bool {
    let block = Block {
        name: Name {
            address: Address(address),
            turn: 0,
        },
        room,
        heap: 0,
    };
    allocated.block == Ok(block) && allocated.allocated_at == allocated_at
}

/// Whether the answer was these slots of page 1, without its right, after so many steps, and they were stopped after so many.
fn is_filled(
    filled: &Result<Filled, NoRoom>,
    class: u8,
    starts: u64,
    filled_at: u64,
    stopped_at: u64,
) -> bool {
    let slots = Slots {
        page: 1,
        heap: 0,
        class,
        starts: Mask4([starts, 0, 0, 0]),
        right: false,
    };
    *filled
        == Ok(Filled {
            slots,
            filled_at,
            stopped_at,
        })
}

#[test]
fn two_blocks_on_one_page(rt: HostRuntime) -> Result<(), Fail> {
    let (blocks, ends) = two_blocks(rt.alloc())?;
    assert!(rt; is_block(&blocks[0], 0x1000, 528, 16));
    assert!(rt; is_block(&blocks[1], 0x1800, 64, 15));
    assert!(rt; ends == Mask4([1 << 32, 0, 1 << 3, 0]));
    Ok(())
}

#[test]
fn two_classes_on_one_page(rt: HostRuntime) -> Result<(), Fail> {
    let filled = two_views(rt.alloc())?;
    assert!(rt; is_filled(&filled[0], 2, 0x249, 14, 14));
    assert!(rt; is_filled(&filled[1], 0, 0xf000, 13, 16));
    Ok(())
}
