//! Two actors sit at one plain region after each other: the first one leaves a page, and the second one wants it.
ghost use Rattle.std.specs.Prelude.{◌≤◌};

use crate::seating::plain_profile;
use pas_plain::beside;
use pas_profile::*;
use pas_trials::{Findings, change, close_both, visit, want};
use std::alloc::Global;
use std::test::Fail;

/// Slots of 512 bytes, eight on a page.
pub const DIRECTORY: Directory = Directory {
    heap: 0,
    kind: Kind::Class(15),
};

/// Actor 1 makes the deed of page 1 and takes the grains of so many of its free words, and leaves it where that is asked. Then actor 2
/// wants the page. How many steps the leave took, what actor 2 found, and the words of the parked and of the offered pages, where page 1 is bit 1.
fn two_turns(alloc: Global, words: u8, leaves: bool) -> Result<(u64, Findings, [u64; 2]), Fail>
    requires { words ≤ 4 }
{
    let (mut desk, pass) = beside(alloc, plain_profile(2), 1)?;
    let left_in = visit(&mut desk, 1, DIRECTORY, words, leaves);
    let (mut desk, pass) = change(desk, pass);
    let findings = want(&mut desk, 1, DIRECTORY);
    let state = close_both(alloc, desk, pass)?;
    let vectors = [
        state.word(Word::Parked(0)),
        state.word(Word::Eligible(15, 0)),
    ];
    Ok((left_in, findings, vectors))
}

/// Whether page 1 was of the directory and its right could be had or not, no page was offered, page 2 had no deed, and this was the verdict.
pub fn found(findings: &Findings, claimed: bool, verdict: NoRoom) -> bool {
    *findings
        == Findings {
            claimed: Some(claimed),
            offered: None,
            bare: Some(2),
            verdict,
        }
}

#[test]
fn a_full_page_is_parked(rt: HostRuntime) -> Result<(), Fail> {
    let (left_in, findings, vectors) = two_turns(rt.alloc(), 4, true)?;
    assert!(rt; left_in == 9 && vectors == [2, 0]);
    assert!(rt; found(&findings, false, NoRoom::NoSpace));
    Ok(())
}

#[test]
fn a_page_in_hand_is_held(rt: HostRuntime) -> Result<(), Fail> {
    let (left_in, findings, vectors) = two_turns(rt.alloc(), 4, false)?;
    assert!(rt; left_in == 0 && vectors == [0, 0]);
    assert!(rt; found(&findings, false, NoRoom::Held(1)));
    Ok(())
}

#[test]
fn a_page_with_room_is_offered(rt: HostRuntime) -> Result<(), Fail> {
    let (left_in, findings, vectors) = two_turns(rt.alloc(), 1, true)?;
    assert!(rt; left_in == 5 && vectors == [0, 0]);
    assert!(rt; found(&findings, true, NoRoom::Held(1)));
    Ok(())
}
