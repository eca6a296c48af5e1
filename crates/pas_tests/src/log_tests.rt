//! A block over two pages, whose name is logged twice.
ghost use Rattle.std.specs.Prelude.{◌≡◌, ◌≤◌, All, length};
ghost use Rattle.pas_steps.specs.States.{profile_of as the_profile_of};
ghost use Rattle.pas_free_log.specs.{Conditions.IsEntryOf, Logs.entries_in};

use crate::plain::{NAME, PROFILE, closed, give};
use arrayvec::ArrayVec;
use pas_free_log::{FreeLog, flush};
use pas_plain::alone;
use pas_profile::*;
use pas_steps::{Desk, State};
use std::test::Fail;

/// No block was ever given there.
const UNKNOWN: Name = Name {
    address: Address(4096),
    turn: 0,
};

/// A log with the block's name, a name of no block, and the block's name once more.
fn logged() -> FreeLog
    ensures entries { All (IsEntryOf PROFILE) (entries_in result) }
    ensures few { length (entries_in result) ≤ 3 }
{
    let mut log = FreeLog::new();
    log.add(NAME);
    log.add(UNKNOWN);
    log.add(NAME);
    log
}

/// Some words of the state.
fn values(state: &State) -> [u64; 6]
    requires { the_profile_of state.now ≡ PROFILE }
{
    [
        state.word(Word::Free(1, 3)),
        state.word(Word::Free(2, 0)),
        state.word(Word::Life(1, 255)),
        state.word(Word::Backed(2)),
        state.word(Word::Parked(0)),
        state.word(Word::Empty(0)),
    ]
}

/// Whether the last events are the end of the block, and the refusals of the name of no block and of the block's name.
fn are_one_end(shown: &[Event]) -> bool {
    let last = [
        Event::End {
            actor: 1,
            name: NAME,
            epoch: 0,
        },
        Event::Reject {
            actor: 1,
            name: UNKNOWN,
            why: Why::NoBlock,
        },
        Event::Reject {
            actor: 1,
            name: NAME,
            why: Why::Ended,
        },
    ];
    shown.ends_with(&last)
}

#[test]
fn a_block_of_two_pages_ends_once(rt: HostRuntime) -> Result<(), Fail> {
    let mut desk = alone(rt.alloc(), PROFILE, 16)?;
    assert!(rt; give(&mut desk));
    let mut log = logged();
    let mut ended = ArrayVec::new();
    flush(&mut desk, &mut log, &mut ended);
    assert!(rt; log.len() == 0 && ended.len() == 0);
    assert!(rt; are_one_end(desk.shown()));
    // A look at the epoch; three steps for the end, and ten on each page; two for each refusal.
    assert!(rt; desk.count() == 9 + 1 + 3 + 2 * 10 + 2 * 2);
    let state = closed(rt.alloc(), desk)?;
    assert!(rt; values(&state) == [u64::MAX, u64::MAX, 1, 1, 0, 6]);
    Ok(())
}
