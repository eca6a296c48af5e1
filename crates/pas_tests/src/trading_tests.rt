//! Two threads that hand a block to each other.
ghost use Rattle.std.specs.Prelude.{◌≡◌, ◌≤◌};
ghost use Rattle.pas_steps.specs.States.{profile_of as the_profile_of};

use pas_profile::{Event, NoMemory, Profile, Word};
use pas_shared::{close, opened_with_room};
use pas_steps::State;
use pas_trials::{Traded, trade_blocks};
use std::test::Fail;

const PROFILE: Profile = Profile {
    pages: 2,
    threads: 2,
    age: 2,
    heaps: 1,
    shared: 0,
    classes: 16,
};

/// Whether the one ended a block that the other one gave.
fn has_ended(one: &Traded, other: &Traded) -> bool {
    let Some(name) = one.ended else {
        return false;
    };
    let ended = match one.pass.shown().last() {
        Some(Event::End { name: its, .. }) => *its == name,
        _ => false,
    };
    ended
        && other.pass.shown().iter().any(
            |event| matches!(event, Event::Give { block, .. } if block.name == name),
        )
}

/// Whether all grains of the page are free.
fn is_empty(state: &State, page: u32) -> bool
    requires profile { (the_profile_of state.now).pages ≡ 2 }
    requires page { (1 ≤ page) × (page ≤ 2) }
{
    state.word(Word::Free(page, 0)) == u64::MAX
        && state.word(Word::Free(page, 1)) == u64::MAX
        && state.word(Word::Free(page, 2)) == u64::MAX
        && state.word(Word::Free(page, 3)) == u64::MAX
}

#[test]
fn each_ends_the_block_of_the_other_one(rt: HostRuntime) -> Result<(), Fail> {
    let (region, mut passes) = opened_with_room(rt.alloc(), PROFILE, 4)?;
    let Some(second) = passes.pop() else {
        return Err(NoMemory.into());
    };
    let Some(first) = passes.pop() else {
        return Err(NoMemory.into());
    };
    let (one, two) = trade_blocks(&rt, rt.alloc(), &region, first, second)?;
    assert!(rt; has_ended(&one, &two) && has_ended(&two, &one));
    let state = close(region, vec![in rt.alloc(); one.pass, two.pass]?);
    assert!(rt; is_empty(&state, 1) && is_empty(&state, 2));
    Ok(())
}
