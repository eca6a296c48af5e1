//! Two actors sit at one shared region at once: the first one leaves a page, and the second one wants it.
ghost use Rattle.std.specs.Prelude.{◌≤◌};

use crate::shared_seating::opened_for_two;
use crate::turn_tests::{DIRECTORY, found};
use pas_profile::*;
use pas_shared::close;
use pas_trials::{Findings, visit, want};
use std::alloc::Global;
use std::test::Fail;

/// Two actors sit at the region at once. Actor 1 makes the deed of page 1 and takes the grains of so many of its free words, and leaves it
/// where that is asked. Then actor 2 wants the page. How many steps the leave took, what actor 2 found, and the words of the parked and of the
/// offered pages, where page 1 is bit 1.
fn two_at_once(alloc: Global, words: u8, leaves: bool) -> Result<(u64, Findings, [u64; 2]), Fail>
    requires { words ≤ 4 }
{
    let (region, first, second) = opened_for_two(alloc, 2, 1)?;
    let mut first = region.desk(first);
    let mut second = region.desk(second);
    let left_in = visit(&mut first, 1, DIRECTORY, words, leaves);
    let findings = want(&mut second, 1, DIRECTORY);
    let passes = vec![in alloc; first.into_pass(), second.into_pass()]?;
    let state = close(region, passes);
    let vectors = [
        state.word(Word::Parked(0)),
        state.word(Word::Eligible(15, 0)),
    ];
    Ok((left_in, findings, vectors))
}

#[test]
fn a_full_page_is_parked(rt: HostRuntime) -> Result<(), Fail> {
    let (left_in, findings, vectors) = two_at_once(rt.alloc(), 4, true)?;
    assert!(rt; left_in == 9 && vectors == [2, 0]);
    assert!(rt; found(&findings, false, NoRoom::NoSpace));
    Ok(())
}

#[test]
fn a_page_in_hand_is_held(rt: HostRuntime) -> Result<(), Fail> {
    let (left_in, findings, vectors) = two_at_once(rt.alloc(), 4, false)?;
    assert!(rt; left_in == 0 && vectors == [0, 0]);
    assert!(rt; found(&findings, false, NoRoom::Held(1)));
    Ok(())
}
