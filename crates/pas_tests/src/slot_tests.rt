//! Two actors that refill one class after each other.
ghost use Rattle.std.specs.Prelude.{◌<◌, ◌≤◌};

use crate::seating::plain_profile;
use pas_bits::Mask4;
use pas_plain::beside;
use pas_profile::*;
use pas_segregated::Slots;
use pas_trials::{Filled, change, close_both, fill, visit};
use std::alloc::Global;
use std::test::Fail;

/// What a refill came to.
type Refill = Result<Filled, NoRoom>;

/// Actor 1 refills the class, and stops the slots where that is asked. Then actor 2 refills the class, and stops its slots. Both refills, and
/// the words of the parked and of the hinted pages, where page 1 is bit 1.
fn two_refills(alloc: Global, class: u8, stops: bool) -> Result<(Refill, Refill, [u64; 2]), Fail>
    requires { class < 16 }
{
    let (mut desk, pass) = beside(alloc, plain_profile(1), 2)?;
    let first = fill(&mut desk, 0, class, stops);
    let (mut desk, pass) = change(desk, pass);
    let second = fill(&mut desk, 0, class, true);
    let state = close_both(alloc, desk, pass)?;
    let vectors = [state.word(Word::Parked(0)), state.word(Word::Empty(0))];
    Ok((first, second, vectors))
}

/// Actor 1 makes the deed of page 1, takes the grains of so many of its free words, and leaves it. Then actor 2 refills the class, and stops
/// its slots.
fn refill_beside(alloc: Global, class: u8, words: u8) -> Result<Refill, Fail>
    requires class { class < 16 }
    requires words { words ≤ 4 }
{
    let (mut desk, pass) = beside(alloc, plain_profile(1), 2)?;
    let directory = Directory {
        heap: 0,
        kind: Kind::Class(class),
    };
    visit(&mut desk, 1, directory, words, true);
    let (mut desk, pass) = change(desk, pass);
    let filled = fill(&mut desk, 0, class, true);
    close_both(alloc, desk, pass)?;
    Ok(filled)
}

/// Whether the refill gave these slots of page 1 with its right, after so many steps, and they were stopped after so many.
fn is_filled(
    filled: &Refill,
    class: u8,
    starts: [u64; 4],
    filled_at: u64,
    stopped_at: u64,
) -> bool {
    let slots = Slots {
        page: 1,
        heap: 0,
        class,
        starts: Mask4(starts),
        right: true,
    };
    *filled
        == Ok(Filled {
            slots,
            filled_at,
            stopped_at,
        })
}

/// Whether both actors get these slots of the class, in 8 steps and in 7, and page 1 is hinted once they are stopped.
fn come_back(alloc: Global, class: u8, starts: [u64; 4]) -> Result<bool, Fail>
    requires { class < 16 }
{
    let (first, second, vectors) = two_refills(alloc, class, true)?;
    Ok(
        is_filled(&first, class, starts, 8, 26)
            && is_filled(&second, class, starts, 7, 25)
            && vectors == [0, 2],
    )
}

#[test]
fn slots_come_back(rt: HostRuntime) -> Result<(), Fail> {
    let thirds = [
        0x9249249249249249,
        0x4924924924924924,
        0x2492492492492492,
        0x1249249249249249,
    ];
    assert!(rt; come_back(rt.alloc(), 0, [u64::MAX; 4])?);
    assert!(rt; come_back(rt.alloc(), 2, thirds)?);
    assert!(rt; come_back(rt.alloc(), 15, [0x0000000100000001; 4])?);
    Ok(())
}

#[test]
fn a_page_whose_slots_are_held_is_held(rt: HostRuntime) -> Result<(), Fail> {
    let (first, second, vectors) = two_refills(rt.alloc(), 0, false)?;
    assert!(rt; is_filled(&first, 0, [u64::MAX; 4], 8, 8));
    assert!(rt; second == Err(NoRoom::Held(1)) && vectors == [0, 0]);
    Ok(())
}

#[test]
fn grains_of_an_incomplete_slot_are_put_back(rt: HostRuntime) -> Result<(), Fail> {
    let free = [
        0,
        0x4924924924924924,
        0x2492492492492492,
        0x1249249249249249,
    ];
    let filled = refill_beside(rt.alloc(), 2, 1)?;
    assert!(rt; is_filled(&filled, 2, free, 10, 20));
    Ok(())
}
