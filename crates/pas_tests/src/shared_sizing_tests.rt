//! Ends by a room, at a shared region.

use crate::seating::{cache_for, plain_profile};
use crate::shared_seating::opened_for_two;
use crate::sizing_tests::{are_of_one_block, are_of_three_ends};
use pas_profile::*;
use pas_steps::Desk;
use pas_trials::borrow_and_end;
use std::test::Fail;

#[test]
fn a_block_ends_by_its_own_room_alone(rt: HostRuntime) -> Result<(), Fail> {
    let (region, first, _) = opened_for_two(rt.alloc(), 1, 16)?;
    let mut desk = region.desk(first);
    let mut cache = cache_for(rt.alloc(), plain_profile(1))?;
    let (block, read) = borrow_and_end(&mut desk, &mut cache);
    assert!(rt; are_of_one_block(&block, read));
    assert!(rt; are_of_three_ends(desk.shown()));
    Ok(())
}
